use crate::name::Name;

/// A value that has a name: a prefix list, a route map or a policy.
#[derive(Drop)]
pub struct Named<T> {
    pub name: Name,
    pub value: T,
}
