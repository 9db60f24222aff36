//! How many transactions are of which kind.
ghost use Rattle.std.specs.Prelude.{◌≡◌};
ghost use Rattle.iso_mix.specs.Mix.{kind_of, is_fair, is_none};

/// What a transaction asks of the host.
#[derive(Clone, Copy, Debug, PartialEq, Eq)]
pub enum Kind {
    /// A debit of class 2, which the driver sees to.
    Purchase,
    /// A debit of class 1, which lowers what is available.
    Hold,
    /// The completion of a hold, which takes its own amount and ends the hold.
    Complete,
    /// What is available.
    Inquiry,
    /// A reversal of a hold that leaves a part of it.
    Undo,
}

/// Of a hundred transactions so many are of these kinds, and the others are purchases.
#[derive(Clone, Copy, Debug, PartialEq, Eq)]
pub struct Mix {
    /// Holds.
    pub hold: u8,
    /// Completions of a hold that was granted.
    pub complete: u8,
    /// Inquiries.
    pub inquiry: u8,
    /// Partial reversals of a hold that was granted.
    pub undo: u8,
}

impl Mix {
    /// Purchases alone.
    pub const NONE: Mix = Mix {
        hold: 0,
        complete: 0,
        inquiry: 0,
        undo: 0,
    };

    /// Whether all are purchases. Takes no memory.
    pub fn is_none(&self) -> bool
        ensures { result ≡ is_none self.now }
    {
        self.hold == 0 && self.complete == 0 && self.inquiry == 0 && self.undo == 0
    }

    /// Whether there are no more than a hundred of a hundred. Takes no memory.
    pub fn is_fair(&self) -> bool
        // It is so exactly where holds, completions, inquiries and partial reversals
        // add up to at most a hundred.
        ensures { result ≡ is_fair self.now }
    {
        let halves = u32::from(self.hold) + u32::from(self.complete);
        halves + u32::from(self.inquiry) + u32::from(self.undo) <= 100
    }

    /// Which kind a number is that was drawn from 0 to 99: the first ones are holds, then come completions, inquiries and
    /// partial reversals, and the rest are purchases. Takes no memory.
    pub fn kind_of(&self, draw: u32) -> Kind
        ensures { result ≡ kind_of self.now draw }
    {
        let holds = u32::from(self.hold);
        let completions = holds + u32::from(self.complete);
        let inquiries = completions + u32::from(self.inquiry);
        let undone = inquiries + u32::from(self.undo);
        if draw < holds {
            Kind::Hold
        } else if draw < completions {
            Kind::Complete
        } else if draw < inquiries {
            Kind::Inquiry
        } else if draw < undone {
            Kind::Undo
        } else {
            Kind::Purchase
        }
    }
}
