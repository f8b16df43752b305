//! A file's hive, loaded and seated.

ghost use Rattle.std.specs.Prelude.{◌≡◌, [], IfOk, IfErr, MatchResult};
ghost use Rattle.reg_text.specs.Failures.{Stays};
ghost use Rattle.reg_callbacks.specs.Lists.{rows_of};
ghost use Rattle.reg_calls.specs.HiveView.{view_of, callbacks_of};
ghost use Rattle.reg_tree_image.specs.Loads.{MeetsFault, IsBlamed};
ghost use Rattle.reg_edits.specs.Edits.{Opens};

use reg_callbacks::NoCallback;
use reg_calls::SeatedHive;
use reg_image::{LoadFault, NumberedHive, load_numbered};
use reg_text::Source;
use std::alloc::Global;

/// A hive that was loaded, with the shares of all its sessions and the sequence number of its image.
#[derive(Drop)]
pub struct LoadedHive {
    pub seated: SeatedHive<NoCallback>,
    pub sequence: u32,
}

/// Loads a hive as [`load_numbered`] does, and seats all its sessions. `Memory` comes also where it lacks for their seats.
pub fn load_seated<F: Source>(alloc: Global, file: &mut F) -> Result<LoadedHive, LoadFault>
    ensures ok { IfOk result (λ loaded. Opens (F.remaining file.old) (F.remaining file.new) (view_of loaded.seated.hive) loaded.sequence) }
    ensures callbacks { IfOk result (λ loaded. rows_of (callbacks_of loaded.seated.hive) ≡ []) }
    ensures err { IfErr result (λ fault. MeetsFault fault (F.remaining file.old) (F.remaining file.new)) }
    ensures failures { MatchResult result (λ _. Stays (F.failures file.old) (F.failures file.new))
        (λ fault. IsBlamed fault (F.failures file.old) (F.failures file.new)) }
{
    let NumberedHive { hive, sequence } = load_numbered::<F, NoCallback>(alloc, file)?;
    match SeatedHive::new(hive) {
        Ok(seated) => Ok(LoadedHive { seated, sequence }),
        Err(_) => Err(LoadFault::Memory),
    }
}
