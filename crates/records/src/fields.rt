// A field: four bytes, low byte first.
ghost use Rattle.std.specs.Prelude.{◌≡◌, ◌+◌, ◌<◌, drop};
ghost use Rattle.rules.specs.Job as rule;
ghost use Rattle.records.specs.Read.{word_of, WordEnds, number_of};

// The number at a position, and the position after it.
#[tactic(auto, using(crate::proofs::Words::word_at, crate::proofs::Words::word_short))]
pub fn word(b: &[u8], at: usize) -> Option<(u32, usize)>
    ensures result_value { word_of b.now result ≡ rule.word (drop at b.now) }
    ensures word_ends { WordEnds b.now at result }
{
    if b.len() < 4 || b.len() - 4 < at {
        return None;
    }
    Some((
        u32::from_le_bytes([b[at], b[at + 1], b[at + 2], b[at + 3]]),
        at + 4,
    ))
}

// The number at a position, and 0 where there are too few bytes.
pub fn number(b: &[u8], at: usize) -> u32
    ensures { result ≡ number_of (rule.word (drop at b.now)) }
{
    word(b, at).map_or(0, |(v, _)| v)
}
