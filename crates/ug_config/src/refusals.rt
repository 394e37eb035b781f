//! Why a configuration is refused.

ghost use Rattle.std.specs.Prelude.{◌≡◌, ◌++◌, Some, IfOk};
ghost use Rattle.ug_config.specs.declared.refusals.ConfigRefusal.TheVariants as refusals;
ghost use Rattle.ug_config.specs.Gives.{Tells};

use std::alloc::{AllocError, AllocFailed, Global};
use thiserror::Error;
use ug_types::{ByteList, NoMemory, Sequence};

/// Why a configuration is refused.
#[derive(Debug, Drop, Error)]
pub enum ConfigRefusal {
    /// 1 no TOML; 2 a required field or table is missing; 3 a value of another kind, out of range or malformed; 4 an
    /// unknown field; 5 a repeated name or sequence number; 6 an unknown name; 7 over a limit; 8 `as_override` or
    /// `remove_private_as` on an internal peer; 9 `client` on an external one. The field is the way to it from the
    /// top, with points between, and places counted from 0.
    #[error("the configuration is refused: {number}")]
    Refused { number: u8, field: ByteList },
    /// Memory ran out.
    #[error("memory was wanting")]
    NoMemory,
}

/// The refusal of a field in the table that the way leads to.
pub fn refusal(alloc: Global, number: u8, way: &str, name: &str) -> ConfigRefusal
    ensures { Tells result (Some (record { number = number; field = way.now ++ name.now })) }
{
    match field_of(alloc, way, name) {
        Ok(field) => ConfigRefusal::Refused { number, field },
        Err(_) => ConfigRefusal::NoMemory,
    }
}

fn field_of(alloc: Global, way: &str, name: &str) -> Result<ByteList, NoMemory>
    ensures { IfOk result (λ field. field.items ≡ way.now ++ name.now) }
{
    let mut field = Vec::from_slice(alloc, way.as_bytes())?;
    field.extend_from_slice(name.as_bytes())?;
    Ok(Sequence::from_vec(field))
}

impl From<NoMemory> for ConfigRefusal {
    ghost from_gives = { λ _ e. e ≡ refusals.NoMemory };

    fn from(_e: NoMemory) -> ConfigRefusal {
        ConfigRefusal::NoMemory
    }
}

impl From<AllocError> for ConfigRefusal {
    ghost from_gives = { λ _ e. e ≡ refusals.NoMemory };

    fn from(_e: AllocError) -> ConfigRefusal {
        ConfigRefusal::NoMemory
    }
}

impl<T: Drop> From<AllocFailed<T>> for ConfigRefusal {
    ghost from_gives = { λ _ e. e ≡ refusals.NoMemory };

    fn from(_e: AllocFailed<T>) -> ConfigRefusal {
        ConfigRefusal::NoMemory
    }
}
