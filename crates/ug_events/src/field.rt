//! Which field of a path a word is.

ghost use Rattle.std.specs.Prelude.{◌≡◌};
ghost use Rattle.std.specs.Option.{option_map};
ghost use Rattle.ug_events.specs.Fields.{valued_field, field_of};
ghost use Rattle.ug_events.specs.SeenFields.{field_seen};

use ug_text::cut_at;

/// A field of a path.
#[derive(Clone, Copy, PartialEq, Eq)]
pub enum Field {
    Id,
    From,
    NextHop,
    Origin,
    AsPath,
    Med,
    LocalPref,
    Atomic,
    Aggregator,
    Communities,
    Originator,
    Clusters,
}

/// The field that has a value behind this key.
fn valued_field(key: &[u8]) -> Option<Field>
    ensures { result ≡ valued_field key.now }
{
    let field = if key == b"id".as_slice() {
        Field::Id
    } else if key == b"from".as_slice() {
        Field::From
    } else if key == b"nh".as_slice() {
        Field::NextHop
    } else if key == b"origin".as_slice() {
        Field::Origin
    } else if key == b"as".as_slice() {
        Field::AsPath
    } else if key == b"med".as_slice() {
        Field::Med
    } else if key == b"lp".as_slice() {
        Field::LocalPref
    } else if key == b"agg".as_slice() {
        Field::Aggregator
    } else if key == b"comm".as_slice() {
        Field::Communities
    } else if key == b"originator".as_slice() {
        Field::Originator
    } else if key == b"clusters".as_slice() {
        Field::Clusters
    } else {
        return None;
    };
    Some(field)
}

/// The field that a word is, and its value: a key, `=` and a value, or `atomic`, which has none.
#[tactic(auto, unfolding(crate::specs::Fields::field_of))]
pub fn field_of(word: &[u8]) -> Option<(Field, &[u8])>
    ensures { option_map field_seen result ≡ field_of word.now }
{
    if word == b"atomic".as_slice() {
        return Some((Field::Atomic, &word[6..]));
    }
    let (key, value) = cut_at(b'=', word)?;
    let field = valued_field(key)?;
    Some((field, value))
}
