// What is held of a life.
ghost use Rattle.std.specs.Prelude.{◌≤◌};
ghost use Rattle.life.specs.Limits.{quantity_limit};

// A life is open until an accepted Cancel.
#[derive(Clone, Copy, PartialEq, Eq, Debug)]
pub enum State {
    Open,
    Cancelled,
}

// The time of the last accepted line, in seconds since 1970, and the quantity and price of the last New or Modify, in hundred-thousandths.
#[derive(Clone, Copy)]
pub struct Life {
    pub state: State,
    pub time: u32,
    pub quantity: u64,
    pub price: Option<i64>,
    ghost bounded: { quantity ≤ quantity_limit },
}
