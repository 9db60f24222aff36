//! Texts that are cut at a mark.
ghost use Rattle.std.specs.Prelude.{◌≡◌, ◌<◌, MatchOption};
ghost use Rattle.iso_etcd.specs.Members.{Has, Lacks, before, behind};

/// What stands before the first mark and behind it. The mark is a character of ASCII.
pub fn cut(text: &str, mark: char) -> Option<(&str, &str)>
    // The mark is a character of ASCII.
    requires { mark < 128 }
    // The parts are what stands before the first mark and behind it; `None` comes exactly where the
    // text has no such mark.
    ensures { MatchOption result (Lacks mark text.now)
        (λ parts. Has mark text.now × (parts.0.now ≡ before mark text.now)
        × (parts.1.now ≡ behind mark text.now)) }
{
    text.split_once(mark)
}
