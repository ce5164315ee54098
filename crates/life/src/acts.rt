// What an action does to a life.
ghost use Rattle.std.specs.Prelude.{◌≡◌, Some, None};
ghost use Rattle.life.specs.Parts.{life_parts as parts};
ghost use Rattle.life.specs.Acts.{life_in as made, life_from as given, fault_in as fault_of, published, answered, life_after as after, begun, begins};

use crate::fault::LifeFault;
use crate::life::{Life, State};
use text::Action;

// The largest quantity, in hundred-thousandths.
const MOST: u64 = 1_000_000_000_000;

// What an accepted action does to a standing life.
#[derive(Clone, Copy, PartialEq, Eq, Debug)]
pub enum Outcome {
    Stays,
    Ends,
}

impl Life {
    // The one place where an open life is made. None where the quantity is over 10,000,000 units.
    pub fn new(time: u32, quantity: u64, price: Option<i64>) -> Option<Life>
        ensures { made result ≡ given time quantity price }
    {
        if quantity > MOST {
            return None;
        }
        Some(Life {
            state: State::Open,
            time,
            quantity,
            price,
        })
    }

    // The same time, quantity and price in a state.
    fn in_state(&self, state: State) -> Life
        ensures { parts result ≡ record { in_state = state; at_time = self.now.time; with_quantity = self.now.quantity; with_price = self.now.price } }
    {
        let mut life = *self;
        life.state = state;
        life
    }

    // What an action does to a standing life, as `told` by its line: time, quantity and price. The life changes in place; a
    // refused action changes nothing, and a life that ends is to be removed.
    pub fn act(&mut self, action: Action, told: &Life) -> Result<Outcome, LifeFault>
        ensures answer { published result ≡ answered action (fault_of action told.now (Some (parts self.old))) }
        ensures life { parts self.new ≡ after action told.now (fault_of action told.now (Some (parts self.old))) (parts self.old) }
    {
        match (self.state, action) {
            (_, Action::New) => return Err(LifeFault::Standing),
            (State::Cancelled, Action::Modify) => return Err(LifeFault::NotOpen),
            (State::Cancelled, Action::Cancel) => return Err(LifeFault::CancelledBefore),
            _ => {}
        }
        if told.time < self.time {
            return Err(LifeFault::Earlier);
        }
        match action {
            Action::Modify => {
                *self = told.in_state(self.state);
                Ok(Outcome::Stays)
            }
            Action::Cancel => {
                self.state = State::Cancelled;
                self.time = told.time;
                Ok(Outcome::Stays)
            }
            _ => Ok(Outcome::Ends),
        }
    }
}

// What an action does where no life stands: a New begins an open one.
pub fn first(action: Action, told: &Life) -> Result<Life, LifeFault>
    ensures { begun result ≡ begins told.now (fault_of action told.now None) }
{
    match action {
        Action::New => Ok(told.in_state(State::Open)),
        Action::Modify => Err(LifeFault::NotOpen),
        Action::Cancel => Err(LifeFault::NoneToCancel),
        Action::Error => Err(LifeFault::NoneToStrike),
    }
}
