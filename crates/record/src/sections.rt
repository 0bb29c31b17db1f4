// The sections of a record: a count, and then an entry of two bytes, cell and digit, for each of its candidates. A section stands for a set of
// digits for each cell; a candidate is numbered 9 times its cell + the place of its digit.
ghost use Rattle.std.specs.Prelude.{◌≡◌, ◌+◌, ◌*◌, ◌≤◌, ◌<◌, get_or, length};
ghost use Rattle.stops.specs.Answer.{answer_of, map};
ghost use Rattle.record.specs.code.Places.{cell_candidates};
ghost use Rattle.record.specs.Sections.{width, after, outside, candidates, entry_bytes, low_first, section_bytes, number_at, well_formed, entry_at, with, with_sets, read_entries, read_section, no_sets, stored};

use candidates::masks;
use cells::mask_at;
use stops::Stop;
use text::byte_at;

// A digit for each of some cells, the clues or the entries; or candidates that were removed.
#[derive(Clone, Copy)]
pub enum Section {
    Digits,
    Removed,
}

// The bytes of the section's count, as the record's form has them.
fn count_width(section: Section) -> usize
    ensures { result ≡ width section }
{
    match section {
        Section::Digits => 1,
        Section::Removed => 2,
    }
}

// The entries of a cell's digits, rising, from `start` on; what is returned is the offset after them. The mask that is left is the counter: an iterator over
// its digits would be these two calls again.
fn put_cell(cell: usize, set: u16, bytes: &mut [u8; 1786], start: usize) -> usize
    requires { (cell < 81) × (start + 2 * length (cell_candidates cell set) ≤ 1786) }
    ensures { (bytes.new ≡ stored bytes.old start (entry_bytes (cell_candidates cell set))) × (result ≡ start + 2 * length (cell_candidates cell set)) }
{
    let mut at = start;
    let mut left = masks::meet(set, 511);
    while left != 0 {
        bytes[at] = cell as u8;
        bytes[at + 1] = (masks::lowest_digit(left) + 1) as u8;
        left = masks::lose_lowest(left);
        at += 2;
    }
    at
}

// The entries of the sets' candidates, rising, from `start` on; what is returned is the offset after them.
fn put_entries(sets: &[u16; 81], bytes: &mut [u8; 1786], start: usize) -> usize
    requires { start + 2 * length (candidates sets.now) ≤ 1786 }
    ensures { (bytes.new ≡ stored bytes.old start (entry_bytes (candidates sets.now))) × (result ≡ start + 2 * length (candidates sets.now)) }
{
    let mut at = start;
    for (cell, set) in sets.iter().enumerate() {
        at = put_cell(cell, *set, bytes, at);
    }
    at
}

// The count, low byte first.
fn put_count(section: Section, bytes: &mut [u8; 1786], start: usize, count: usize)
    requires { (start + width section ≤ 1786) × (count < 65536) }
    ensures { bytes.new ≡ stored bytes.old start (low_first (width section) count) }
{
    bytes[start] = (count % 256) as u8;
    match section {
        Section::Digits => {}
        Section::Removed => bytes[start + 1] = (count / 256) as u8,
    }
}

// The section of these sets, from `start` on; what is returned is the offset after it.
pub fn put_section(
    section: Section,
    sets: &[u16; 81],
    bytes: &mut [u8; 1786],
    start: usize,
) -> usize
    requires { start + length (section_bytes section sets.now) ≤ 1786 }
    ensures { (bytes.new ≡ stored bytes.old start (section_bytes section sets.now)) × (result ≡ start + length (section_bytes section sets.now)) }
{
    let first = start + count_width(section);
    let end = put_entries(sets, bytes, first);
    put_count(section, bytes, start, (end - first) / 2);
    end
}

// The byte at an offset as a number; 0 past the record. Offsets are of the whole record, since its stops say them.
fn value_at(bytes: &[u8], at: usize) -> usize
    ensures { result ≡ get_or bytes.now at 0 }
{
    byte_at(bytes, at) as usize
}

// The count that stands at an offset; 0 in place of bytes past the record.
fn count_at(section: Section, bytes: &[u8], at: usize) -> usize
    requires { at < length bytes.now }
    ensures { result ≡ number_at (width section) bytes.now at }
{
    let low = value_at(bytes, at);
    match section {
        Section::Digits => low,
        Section::Removed => low + 256 * value_at(bytes, at + 1),
    }
}

// Whether the bytes name a candidate that is not below `low`.
fn well_formed(low: usize, cell: usize, digit: usize) -> bool
    ensures { result ≡ well_formed low cell digit }
{
    cell <= 80 && 1 <= digit && digit <= 9 && low <= 9 * cell + (digit - 1)
}

// The stop of an entry at `at` whose candidate the section may not have.
fn outside_stop(section: Section, at: i64) -> Stop
    ensures { result ≡ outside section at }
{
    match section {
        Section::Digits => Stop::RecordEntry(at),
        Section::Removed => Stop::NotFresh(at),
    }
}

// The candidate of the entry at an offset, which is not below `low` and one of `free`.
fn entry_at(
    section: Section,
    free: &[u16; 81],
    bytes: &[u8],
    low: usize,
    at: usize,
) -> Result<usize, Stop>
    ensures { answer_of result ≡ entry_at section free.now bytes.now low at }
{
    if bytes.len() < 2 {
        return Err(Stop::RecordBytes(bytes.len() as i64));
    }
    if bytes.len() - 2 < at {
        return Err(Stop::RecordBytes(bytes.len() as i64));
    }
    let cell = value_at(bytes, at);
    let digit = value_at(bytes, at + 1);
    if !well_formed(low, cell, digit) {
        return Err(Stop::RecordEntry(at as i64));
    }
    if !masks::has_digit(mask_at(free, cell), digit - 1) {
        return Err(outside_stop(section, at as i64));
    }
    Ok(9 * cell + (digit - 1))
}

// The lowest candidate that may follow this one.
fn next_low(section: Section, candidate: usize) -> usize
    requires { candidate < 729 }
    ensures { result ≡ after section candidate }
{
    match section {
        Section::Digits => 9 * (candidate / 9 + 1),
        Section::Removed => candidate + 1,
    }
}

fn add(sets: &mut [u16; 81], candidate: usize)
    requires { candidate < 729 }
    ensures { sets.new ≡ with sets.old candidate }
{
    let cell = candidate / 9;
    sets[cell] = masks::join(sets[cell], masks::digit_mask(candidate % 9));
}

// The entries from `start` on, whose candidates are added to the lent sets.
fn read_entries(
    section: Section,
    free: &[u16; 81],
    bytes: &[u8],
    count: usize,
    start: usize,
    sets: &mut [u16; 81],
) -> Result<usize, Stop>
    ensures { map (with_sets sets.new) (answer_of result) ≡ read_entries section free.now bytes.now count 0 start sets.old }
{
    let mut low: usize = 0;
    let mut at = start;
    for _ in 0..count {
        let candidate = entry_at(section, free, bytes, low, at)?;
        add(sets, candidate);
        low = next_low(section, candidate);
        at += 2;
    }
    Ok(at)
}

// A whole section, whose candidates are added to the lent sets.
pub fn read_section(
    section: Section,
    free: &[u16; 81],
    bytes: &[u8],
    start: usize,
    sets: &mut [u16; 81],
) -> Result<usize, Stop>
    requires { sets.old ≡ no_sets }
    ensures { map (with_sets sets.new) (answer_of result) ≡ read_section section free.now bytes.now start }
{
    let width = count_width(section);
    if bytes.len() < width {
        return Err(Stop::RecordBytes(bytes.len() as i64));
    }
    if bytes.len() - width < start {
        return Err(Stop::RecordBytes(bytes.len() as i64));
    }
    let count = count_at(section, bytes, start);
    read_entries(section, free, bytes, count, start + width, sets)
}
