//! Going back after a stop.

ghost use Rattle.std.specs.Prelude.{◌≡◌};
ghost use Rattle.mi_volume.specs.Maps.{Map};
ghost use Rattle.mi_volume.specs.State.{Passes, GoesOn};
ghost use Rattle.mi_undo.specs.Area.{volume, IsLive, CanGoBack};
ghost use Rattle.mi_undo.specs.Room.{NeverShort};
ghost use Rattle.mi_carry.specs.Falls.{Falls, AnswersStop, fell, gone, stuck};
ghost use Rattle.mi_carry.specs.Rooms.{FitsBack};

use crate::stop::Stop;
use mi_base::{Kind, Pause, Place};
use mi_undo::{BackFault, Open};
use mi_volume::Volume;
use std::alloc::Global;

/// Goes back, and answers by why. `first` is the volume's count of faults when the run began to write.
pub fn fall_back<V: Volume>(alloc: Global, area: Open<'_, V>, first: u64, why: Stop) -> Kind
    requires live { IsLive area }
    requires can_go_back { V.told → (F : Map) × CanGoBack (V.state (volume area)) area.kept F }
    ensures falls { V.told → (F : Map) → CanGoBack (V.state area.entry.vol.now) area.entry.kept F → Falls (V.state area.entry.vol.now) (V.state area.exit.0.now) F result }
    ensures answers { AnswersStop (V.told → (F : Map) × CanGoBack (V.state area.entry.vol.now) area.entry.kept F × FitsBack (V.state area.entry.vol.now) F) why first (V.state area.entry.vol.now).faults (V.state area.exit.0.now).faults result }
    ensures recovers { V.told → (F : Map) → CanGoBack (V.state area.entry.vol.now) area.entry.kept F → FitsBack (V.state area.entry.vol.now) F → GoesOn (V.state area.entry.vol.now) (V.state area.exit.0.now) (NeverShort (V.state area.entry.vol.now).capacity) }
    ensures passes { Passes (V.state area.entry.vol.now) (V.state area.exit.0.now) }
{
    let again = area.faults();
    let back = area.back(alloc);
    answer_back(back, why, first, again)
}

/// The answer after going back.
fn answer_back(back: Result<(), BackFault>, why: Stop, first: u64, again: u64) -> Kind
    ensures { result ≡ fell back why first again }
{
    match back {
        Ok(()) => give_up(why),
        Err(BackFault::NoMemory) => {
            drop(why);
            Kind::NoMemory
        }
        Err(BackFault::Fault) => still_back(why, first, again),
        Err(BackFault::Full) => still_back(why, first, again),
    }
}

/// The answer where nothing is left to go back from.
pub fn give_up(why: Stop) -> Kind
    ensures { result ≡ gone why }
{
    match why {
        Stop::NoMemory => Kind::NoMemory,
        Stop::Refuse(cause) => Kind::Refused(cause),
    }
}

/// The answer where going back failed.
fn still_back(why: Stop, first: u64, again: u64) -> Kind
    ensures { result ≡ stuck why first again }
{
    match why {
        Stop::NoMemory => Kind::NoMemory,
        Stop::Refuse(cause) => Kind::Suspended(Pause {
            place: Place::InRollback,
            why: Some(cause),
            begun: first,
            again,
        }),
    }
}
