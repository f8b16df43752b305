//! Changes made in session 0.
ghost use Rattle.std.specs.Prelude.{◌≡◌, IfOk, IfErr, true, is_some};
ghost use Rattle.reg_model.specs.Worlds.{look};
ghost use Rattle.reg_model.specs.declared.call.Change.{Change};
ghost use Rattle.reg_model.specs.declared.reply.ChangeReply.{ChangeReply};
ghost use Rattle.reg_calls.specs.HiveView.{view_of, callbacks_of, asks_of};
ghost use Rattle.reg_calls.specs.Views.{IsHive, IsAccepted};
ghost use Rattle.reg_dotreg_import.specs.Internal.Standing.{IsMade, IsFaultOf};

use crate::ImportFault;
use reg_callbacks::Callback;
use reg_calls::SeatedHive;
use reg_model::Change;
use reg_model::statuses::NOT_ENOUGH_MEMORY;

/// Makes a change in session 0, and tells the handle that it opened. Where it is refused, nothing changed.
pub fn make<C: Callback>(
    hive: &mut SeatedHive<C>,
    moment: u64,
    line: u64,
    change: Change,
) -> Result<Option<u64>, ImportFault>
    ensures callbacks { callbacks_of hive.new.hive ≡ callbacks_of hive.old.hive }
    ensures ok { IfOk result (λ handle. IsMade (view_of hive.old.hive) (view_of hive.new.hive) moment change handle) }
    ensures same { IfErr result (λ _. view_of hive.new.hive ≡ view_of hive.old.hive) }
    ensures err { IfErr result (λ fault. IsFaultOf (asks_of C.answers hive.old.hive) (view_of hive.old.hive) moment line change fault) }
{
    let reply = hive.apply(0, moment, change);
    let status = reply.status;
    if status == 0 {
        return Ok(reply.handle);
    }
    if status == NOT_ENOUGH_MEMORY {
        return Err(ImportFault::Memory);
    }
    Err(ImportFault::Refused { line, status })
}

/// Closes a handle of session 0. That is never refused.
pub fn close<C: Callback>(hive: &mut SeatedHive<C>, moment: u64, handle: u64)
    ensures callbacks { callbacks_of hive.new.hive ≡ callbacks_of hive.old.hive }
    ensures closed { IsHive (view_of hive.old.hive) → is_some (look 0 handle (view_of hive.old.hive).handles) ≡ true →
        (reply : ChangeReply) × IsAccepted (view_of hive.old.hive) (view_of hive.new.hive) 0 moment (Change.Close handle) reply }
{
    let _ = hive.apply(0, moment, Change::Close { handle });
}
