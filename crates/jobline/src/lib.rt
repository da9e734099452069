// What a job's line says: every number in range or not, and the numbers of its machines and chares.
#![tactic(auto)]

ghost use Rattle.std.specs.Prelude.{◌≡◌};
ghost use Rattle.protocol.specs.Job.{buddy_byte, chare_byte, buddy_in_range, chare_in_range, job_in_range, job_of};
ghost use Rattle.frames.specs.Decode.{decoded};
ghost use Rattle.jobline.specs.Numbers.{number_of};

// The three numbers that a line has of a chare, in their order: its machine and its two ports. `as u8` gives the place of each.
#[derive(Clone, Copy)]
pub enum Number {
    Home,
    First,
    Second,
}

fn buddy_byte(line: &[u8], p: u8) -> u8
    ensures { result ≡ buddy_byte (decoded line.now) p }
{
    frames::byte(line, 2 + p as usize)
}

// The i-th of the three numbers of chare `c`.
fn chare_byte(line: &[u8], i: u8, c: u8) -> u8
    ensures { result ≡ chare_byte (decoded line.now) c i }
{
    let machines = frames::byte(line, 1) as usize;
    frames::byte(line, machines + 3 * c as usize + i as usize)
}

fn buddy_in_range(line: &[u8], p: u8) -> bool
    ensures { result ≡ buddy_in_range (decoded line.now) p }
{
    let buddy = buddy_byte(line, p);
    buddy <= frames::byte(line, 1) && buddy != p
}

fn chare_in_range(line: &[u8], c: u8) -> bool
    ensures { result ≡ chare_in_range (decoded line.now) c }
{
    let machines = frames::byte(line, 1);
    let chares = frames::byte(line, 2);
    (1..=machines).contains(&chare_byte(line, Number::Home as u8, c))
        && chare_byte(line, Number::First as u8, c) <= chares
        && chare_byte(line, Number::Second as u8, c) <= chares
}

// Every number of a job line is in range, and no machine is its own buddy.
pub fn job_in_range(line: &[u8]) -> bool
    ensures { result ≡ job_in_range (decoded line.now) }
{
    let machines = frames::byte(line, 1);
    let chares = frames::byte(line, 2);
    (2..=6).contains(&machines)
        && (1..=12).contains(&chares)
        && (1..=machines).all(|p| buddy_in_range(line, p))
        && (1..=chares).all(|c| chare_in_range(line, c))
}

// The buddy of machine `p`, 0 where the job has no such machine; a buddy of 0 is the previous machine.
pub fn buddy_of(line: &[u8], p: u8) -> u8
    ensures { result ≡ (job_of (decoded line.now)).buddy p }
{
    let machines = frames::byte(line, 1);
    if !(1..=machines).contains(&p) {
        return 0;
    }
    match buddy_byte(line, p) {
        0 if p == 1 => machines,
        0 => p - 1,
        buddy => buddy,
    }
}

// The i-th number of chare `c` (`Number` has the three), 0 where the job has no such chare.
pub fn number_of(line: &[u8], i: u8, c: u8) -> u8
    ensures { result ≡ number_of (decoded line.now) i c }
{
    if (1..=frames::byte(line, 2)).contains(&c) {
        chare_byte(line, i, c)
    } else {
        0
    }
}
