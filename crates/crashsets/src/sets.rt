// Sets of machines that crash at once, each a word: machine p stands in it if bit p - 1 is set. The functions ask that the job line is in
// range: it is asked of the line once, where the report is written, and a struct for it would hold the line alone.
ghost use Rattle.std.specs.Prelude.{◌≡◌, true, ◌&&◌, ◌-◌, ◌≤◌};
ghost use Rattle.protocol.specs.Job.{machines_of, job_in_range, job_of};
ghost use Rattle.frames.specs.Decode.{decoded};
ghost use Rattle.window.specs.Bits.{bits};
ghost use Rattle.crashsets.specs.CrashSets.{survives, total, survived};
ghost use Rattle.crashsets.specs.Words.{set_of};

#[derive(Clone, Copy)]
pub struct Counts {
    pub total: u8,
    pub survived: u8,
}

fn stands(set: u64, p: u8) -> bool
    requires { (1 ≤ p) × (p ≤ 64) }
    ensures { result ≡ bits set (p - 1) }
{
    (set >> (p - 1)) & 1 == 1
}

// Machine p and its buddy both stand in the set.
fn together(line: &[u8], set: u64, p: u8) -> bool
    requires line_value { job_in_range (decoded line.now) ≡ true }
    requires le_p { (1 ≤ p) × (p ≤ machines_of (decoded line.now)) }
    ensures { result ≡ (bits set (p - 1) && bits set ((job_of (decoded line.now)).buddy p - 1)) }
{
    stands(set, p) && stands(set, jobline::buddy_of(line, p))
}

// No machine of the set stands together with its buddy.
fn survives(line: &[u8], set: u64) -> bool
    requires { job_in_range (decoded line.now) ≡ true }
    ensures { result ≡ survives (job_of (decoded line.now)) (set_of (machines_of (decoded line.now)) set) }
{
    for p in 1..=frames::byte(line, 1) {
        if together(line, set, p) {
            return false;
        }
    }
    true
}

// The sets of f machines of the job in a line, and how many of them are survived.
pub fn count(line: &[u8], f: u8) -> Counts
    requires { job_in_range (decoded line.now) ≡ true }
    ensures all { result.total ≡ total (job_of (decoded line.now)) f }
    ensures good { result.survived ≡ survived (job_of (decoded line.now)) f }
{
    let mut total = 0;
    let mut survived = 0;
    for set in 0..1u64 << frames::byte(line, 1) {
        if set.count_ones() == f as u32 {
            total += 1;
            if survives(line, set) {
                survived += 1;
            }
        }
    }
    Counts { total, survived }
}
