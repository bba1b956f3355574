// Bytes of one kind at the front of a row or a line.
ghost use Rattle.std.specs.Prelude.{◌≡◌, ◌≤◌, ℕ, Bool, length};
ghost use Rattle.scan.specs.Runs.{run, span, past};

// A kind of byte.
pub trait Kind {
    ghost includes: { ℕ → Bool };

    fn is(byte: u8) -> bool
        ensures { result ≡ includes byte };
}

// How many bytes of the kind stand at the front.
pub fn run<K: Kind>(bytes: &[u8]) -> usize
    ensures is { result ≡ run K.includes bytes.now }
    ensures within { result ≤ length bytes.now }
{
    bytes.iter().take_while(|byte| K::is(**byte)).count()
}

// What stands behind those bytes.
pub fn past<K: Kind>(bytes: &[u8]) -> &[u8]
    ensures { result.now ≡ past K.includes bytes.now }
{
    split::<K>(bytes).1
}

// Those bytes, and what stands behind them.
pub fn split<K: Kind>(bytes: &[u8]) -> (&[u8], &[u8])
    ensures front { result.0.now ≡ span K.includes bytes.now }
    ensures back { result.1.now ≡ past K.includes bytes.now }
{
    bytes.split_at(run::<K>(bytes))
}
