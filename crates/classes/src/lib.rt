#![tactic(auto)]
// Runs of bytes of one class, as the digits: where the longest run that starts at a place ends.
ghost use Rattle.std.specs.Prelude.{◌≡◌, ℕ, Bool, true, not, ◌&&◌, ◌+◌, ◌≤◌, ◌<◌, length};
ghost use Rattle.std.specs.List.{fold, position};
ghost use Rattle.classes.specs.Runs.{run_end, Reached};

// A class of bytes.
pub trait Class {
    ghost member: { ℕ → Bool };

    fn has(b: u8) -> bool
        ensures { result ≡ member b };
}

// Whether each byte is of the class. `&` in place of branches: the compiler makes one comparison of many bytes.
pub fn all_of<C: Class>(bytes: &[u8]) -> bool
    ensures { result ≡ fold (λ all b. C.member b && all) true bytes.now }
{
    bytes.iter().fold(true, |all, b| C::has(*b) & all)
}

// A place further on in the run, by whole blocks of N bytes.
pub fn past_blocks<C: Class, const N: usize>(line: &[u8], at: usize) -> usize
    requires in_line { at ≤ length line.now }
    requires size { (0 < N) × (N ≤ 64) }
    ensures { Reached (run_end C.member) line.now at result }
{
    let mut i = at;
    while i + N <= line.len() {
        if !all_of::<C>(&line[i..i + N]) {
            return i;
        }
        i += N;
    }
    i
}

// The first byte that is not of the class.
fn first_not<C: Class>(bytes: &[u8]) -> Option<usize>
    ensures { result ≡ position (λ b. not (C.member b)) bytes.now }
{
    bytes.iter().position(|b| !C::has(*b))
}

// The end of the run.
pub fn run_end<C: Class>(line: &[u8], at: usize) -> usize
    requires { at ≤ length line.now }
    ensures { result ≡ run_end C.member line.now at }
{
    match first_not::<C>(&line[at..]) {
        Some(size) => at + size,
        None => line.len(),
    }
}

// The same for a run that is mostly long: by blocks first.
pub fn long_run_end<C: Class, const N: usize>(line: &[u8], at: usize) -> usize
    requires in_line { at ≤ length line.now }
    requires size { (0 < N) × (N ≤ 64) }
    ensures { result ≡ run_end C.member line.now at }
{
    let blocks = past_blocks::<C, N>(line, at);
    run_end::<C>(line, blocks)
}
