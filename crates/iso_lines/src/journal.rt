//! How full the journal is, and when that is told.
ghost use Rattle.std.specs.Prelude.{◌≡◌};
ghost use Rattle.iso_lines.specs.Filling.{reached, rising, told_after};

/// What was told of how full the journal is: as many hundredths of its limit.
#[derive(Clone, Copy, Debug, PartialEq, Eq)]
pub struct Filling {
    /// 0, 90 or 99.
    pub told: u8,
}

/// The hundredths of the limit that are told and that so many entries reach.
fn reached(entries: u32, limit: u32) -> u8
    ensures { result ≡ reached entries limit }
{
    let (entries, limit) = (entries as u64, limit as u64);
    if 99 * limit <= 100 * entries {
        return 99;
    }
    if 90 * limit <= 100 * entries {
        return 90;
    }
    0
}

impl Filling {
    /// Nothing was told yet.
    pub const NONE: Filling = Filling { told: 0 };

    /// What is to be told now, if anything is: the hundredths that are reached, once each.
    pub fn rises(&mut self, entries: u32, limit: u32) -> Option<u8>
        // It tells 90 or 99 hundredths where so many are reached and fewer were told
        // before, and else nothing.
        ensures told { result ≡ rising (reached entries limit) self.old.told }
        // What it tells now counts as told from then on, so it tells it once.
        ensures once { self.new.told ≡ told_after (reached entries limit) self.old.told }
    {
        let hundredths = reached(entries, limit);
        if self.told < hundredths {
            self.told = hundredths;
            Some(hundredths)
        } else {
            None
        }
    }
}
