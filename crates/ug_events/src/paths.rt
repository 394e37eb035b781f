//! The paths of a `paths` line.

ghost use Rattle.std.specs.Prelude.{◌≡◌, ◌<◌, true, length, IfOk, IfSome};
ghost use Rattle.std.specs.List.{list_all};
ghost use Rattle.ug_events.specs.Events.{IsGiven, AreGiven, is_some_path, is_in_range};
ghost use Rattle.ug_events.specs.Words.{words};
ghost use Rattle.ug_events.specs.Paths.{runs, first_of, others_of, fields_of, path_of, paths_of};
ghost use Rattle.ug_events.specs.Views.{Gives, fields_seen};
ghost use Rattle.ug_events.specs.SeenFields.{runs_in};

use crate::event::Given;
use crate::path_fields::PathFields;
use crate::refusal::LineRefusal;
use crate::words::next_word;
use std::alloc::Global;
use ug_types::{Family, Sequence};

/// The paths of a prefix of the family: runs of fields with a word `|` between. They share the attributes of those near
/// them that have equal ones.
#[tactic(auto, using(crate::proofs::Runs::one_path, crate::proofs::Runs::path_refused, crate::proofs::Runs::given_push, crate::proofs::Runs::some_push, crate::proofs::Each::behind_nothing))]
pub fn read_paths(
    alloc: Global,
    near: &[Given],
    family: Family,
    rest: &[u8],
) -> Result<Sequence<Given>, LineRefusal>
    ensures read { Gives (λ list. list.items) result (paths_of family (words rest.now)) }
    ensures given { IfOk result (λ list. AreGiven list.items) }
    ensures some { IfOk result (λ list. is_some_path list.items ≡ true) }
    ensures in_range { IfOk result (λ list. list_all (is_in_range family) list.items ≡ true) }
{
    let (first, behind) = read_path(alloc, near, family, rest)?;
    let mut paths = Vec::with_capacity(alloc, 1)?;
    paths.push(first)?;
    let mut left = behind;
    while let Some(run) = left {
        let (path, behind) = read_path(alloc, near, family, run)?;
        paths.push(path)?;
        left = behind;
    }
    Ok(Sequence::from_vec(paths))
}

/// The path of the words up to a bar, and what stands behind that, where there is one.
fn read_path<'a>(
    alloc: Global,
    near: &[Given],
    family: Family,
    rest: &'a [u8],
) -> Result<(Given, Option<&'a [u8]>), LineRefusal>
    ensures read { Gives (λ x. x.0) result (path_of family (first_of (runs (words rest.now)))) }
    ensures behind { IfOk result (λ x. runs_in x.1 ≡ others_of (runs (words rest.now))) }
    ensures shorter { IfOk result (λ x. IfSome x.1 (λ text. length text.now < length rest.now)) }
    ensures given { IfOk result (λ x. IsGiven x.0) }
{
    let mut fields = PathFields::new();
    let behind = read_fields(alloc, family, &mut fields, rest)?;
    let given = fields.into_path(alloc, near)?;
    Ok((given, behind))
}

/// Adds the fields of the words up to a bar, and gives what stands behind that, where there is one.
#[tactic(auto, unfolding(crate::specs::Paths::runs, crate::specs::Paths::fields_of))]
fn read_fields<'a>(
    alloc: Global,
    family: Family,
    fields: &mut PathFields,
    rest: &'a [u8],
) -> Result<Option<&'a [u8]>, LineRefusal>
    ensures read { Gives (λ _. fields_seen fields.new) result (fields_of family (fields_seen fields.old) (first_of (runs (words rest.now)))) }
    ensures behind { IfOk result (λ behind. runs_in behind ≡ others_of (runs (words rest.now))) }
    ensures shorter { IfOk result (λ behind. IfSome behind (λ text. length text.now < length rest.now)) }
{
    let mut left = rest;
    while let Some((word, after)) = next_word(left) {
        if word == b"|".as_slice() {
            return Ok(Some(after));
        }
        fields.read(alloc, family, word)?;
        left = after;
    }
    Ok(None)
}
