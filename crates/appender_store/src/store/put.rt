// What may be put into a folder in memory, and why not.
ghost use Rattle.std.specs.Prelude.{◌≡◌};

use super::entries::Item;
use appender_names::names::is_entry_name;
use std::alloc::AllocError;
use std::collections::BTreeMap;
use thiserror::Error;

/// Why something was not put into a folder in memory.
#[derive(Clone, Copy, Debug, PartialEq, Eq, Error)]
pub enum PutError {
    /// It is not a single path component: it is empty, `.` or `..`, or contains a `/` or a zero byte.
    #[error("name not allowed")]
    Name,
    /// The name is in use.
    #[error("name in use")]
    Used,
    /// Memory was refused.
    #[error("out of memory")]
    Memory,
}

impl From<AllocError> for PutError {
    ghost use Rattle.appender_store.specs.declared.store.put.PutError.TheVariants.{Memory};

    ghost from_gives = { λ _ e. e ≡ Memory };

    fn from(_error: AllocError) -> PutError {
        PutError::Memory
    }
}

impl PutError {
    ghost use Rattle.std.specs.Prelude.{None, Some, OnOk, IfErr};
    ghost use Rattle.appender_store.specs.Inside.Entries.{names_of};
    ghost use Rattle.appender_store.specs.MemoryPut.{put_refusal};

    // Whether something may be put under this name.
    #[tactic(auto, using(crate::proofs::MemoryEntryLemmas::in_use))]
    pub(crate) fn check(names: &BTreeMap<String, Item>, name: &str) -> Result<(), PutError>
        ensures ok { OnOk result (put_refusal (names_of names.now) name.now ≡ None) }
        ensures err { IfErr result (λ e. put_refusal (names_of names.now) name.now ≡ Some e) }
    {
        if !is_entry_name(name) {
            return Err(PutError::Name);
        }
        if names.contains_key(name) {
            return Err(PutError::Used);
        }
        Ok(())
    }
}
