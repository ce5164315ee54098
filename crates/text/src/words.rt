// The words of a report line that stand for one of a few things. Each is read by an `of` that answers Option: a TryFrom would need
// an error type that says nothing.
ghost use Rattle.std.specs.Prelude.{◌≡◌};
ghost use Rattle.text.specs.Forms.{kind_form, side_form, action_form};

// What a line reports: an order to trade, or a trade. Orders come first.
#[derive(Clone, Copy, PartialEq, Eq, PartialOrd, Ord, Debug)]
pub enum Kind {
    Order,
    Trade,
}

impl Kind {
    // ORD or TRD.
    pub fn of(text: &[u8]) -> Option<Kind>
        ensures { result ≡ kind_form text.now }
    {
        match text {
            b"ORD" => Some(Kind::Order),
            b"TRD" => Some(Kind::Trade),
            _ => None,
        }
    }
}

// Whether the participant buys or sells. Buys come first.
#[derive(Clone, Copy, PartialEq, Eq, PartialOrd, Ord, Debug)]
pub enum Side {
    Buy,
    Sell,
}

impl Side {
    // B or S.
    pub fn of(text: &[u8]) -> Option<Side>
        ensures { result ≡ side_form text.now }
    {
        match text {
            b"B" => Some(Side::Buy),
            b"S" => Some(Side::Sell),
            _ => None,
        }
    }
}

// What a line does with the life of its order or trade.
#[derive(Clone, Copy, PartialEq, Eq, Debug)]
pub enum Action {
    New,
    Modify,
    Error,
    Cancel,
}

impl Action {
    // One of the letters N, M, E and C. A rule of the project: the letter is matched as a character.
    pub fn of(text: &[u8]) -> Option<Action>
        ensures { result ≡ action_form text.now }
    {
        let [only] = text else {
            return None;
        };
        match char::from(*only) {
            'N' => Some(Action::New),
            'M' => Some(Action::Modify),
            'E' => Some(Action::Error),
            'C' => Some(Action::Cancel),
            _ => None,
        }
    }
}
