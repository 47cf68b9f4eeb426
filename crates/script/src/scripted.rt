// What scripts are of: a station and a car, at which a script starts and its events are carried out.
ghost use Rattle.std.specs.Prelude.{◌≡◌, true, ℕ, List, length, Option, IfSome};
ghost use Rattle.rules.specs.Invariant as station;
ghost use Rattle.car_rules.specs.Invariant as car;
ghost use Rattle.script.specs.Ends.{BeginsAs, carried_out};
ghost use Rattle.script.specs.Layout as layout;
ghost use Rattle.script.specs.CarLayout as car_layout;
ghost use Rattle.script.specs.Promises as promises;
ghost use Rattle.script.specs.CarPromises as car_promises;
ghost use Rattle.script.specs.declared.Started.{Started};
ghost use Rattle.script.specs.declared.Happened.{Happened};

use crate::{Happened, Started, of_car};
use car_rules::Car;
use rules::Station;

// A station or a car.
pub trait Scripted: Copy {
    ghost kept: { Self → Type 0 };

    // What a start by a head promises.
    ghost Starts: { List ℕ → Option (Started Self) → Type 0 };

    // How many events a head tells.
    ghost count_in: { List ℕ → ℕ };

    // What carrying an event out promises, by the octets that it is and the output at entry and at exit.
    ghost Happens: { Self → List ℕ → List ℕ → List ℕ → Option (Happened Self) → Type 0 };

    // Configures as the head says, or gives nothing where the head breaks the layout.
    fn start(head: &[u8]) -> Option<Started<Self>>
        ensures kept { IfSome result (λ r. kept r.first) }
        ensures starts { Starts head.now result };

    // The number of events that the head tells.
    fn event_count(head: &[u8]) -> u64
        ensures { result ≡ count_in head.now };

    // Carries an event out: its reply stands from the output's first octet. Octets that break the layout do nothing.
    fn event(self, event: &[u8], out: &mut [u8]) -> Option<Happened<Self>>
        requires { kept self }
        ensures kept { IfSome result (λ h. kept h.left) }
        ensures happens { Happens self event.now out.old out.new result };
}

impl Scripted for Station {
    ghost kept = { station.Invariant };

    ghost Starts = { λ h. BeginsAs (layout.is_head h) (promises.Starts h) };

    ghost count_in = { layout.count_in };

    ghost Happens = { λ s e entry. promises.Happens s (carried_out layout.kinds e (length entry)) entry };

    fn start(head: &[u8]) -> Option<Started<Station>> {
        if !crate::is_head(head) {
            return None;
        }
        Some(crate::start(head))
    }

    fn event_count(head: &[u8]) -> u64 {
        crate::event_count(head)
    }

    fn event(self, event: &[u8], out: &mut [u8]) -> Option<Happened<Station>> {
        crate::event(self, event, out)
    }
}

impl Scripted for Car {
    ghost kept = { car.Invariant };

    ghost Starts = { λ h. BeginsAs true (car_promises.Starts h) };

    ghost count_in = { car_layout.count_in };

    ghost Happens = { λ c e entry. car_promises.Happens c (carried_out car_layout.kinds e (length entry)) entry };

    fn start(head: &[u8]) -> Option<Started<Car>> {
        Some(of_car::start(head))
    }

    fn event_count(head: &[u8]) -> u64 {
        of_car::event_count(head)
    }

    fn event(self, event: &[u8], out: &mut [u8]) -> Option<Happened<Car>> {
        of_car::event(self, event, out)
    }
}
