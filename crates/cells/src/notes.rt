// The log of settling: each step that removed something, as six bytes, and behind room for 729 of them how many there are, as two bytes, the lower one first.
// It is lent as a slice, so that who wants no steps lends one without bytes; of any other length it takes what it has room for.
ghost use Rattle.std.specs.Prelude.{◌≡◌, [], ◌∷◌, ◌<◌, set};
ghost use Rattle.steps.specs.Boards.{at};
ghost use Rattle.steps.specs.code.Logs.{steps_noted, noted};
ghost use Rattle.cells.specs.code.Notes.{steps_held};

// The byte at a place, 0 past the log's end.
fn byte_at(log: &[u8], place: usize) -> usize
    ensures { (result ≡ at log.now place) × (result < 256) }
{
    log.get(place).copied().map_or(0, usize::from)
}

pub fn steps_noted(log: &[u8]) -> usize
    ensures { result ≡ steps_noted log.now }
{
    byte_at(log, 4374) + 256 * byte_at(log, 4375)
}

// A byte at a place; nothing past the log's end.
fn put(log: &mut [u8], place: usize, byte: u8)
    ensures { log.new ≡ set log.old place byte }
{
    if place < log.len() {
        log[place] = byte;
    }
}

// One more step. A full log stays as it is: settling never fills one.
pub fn note(
    log: &mut [u8],
    kind: usize,
    first: usize,
    second: usize,
    third: usize,
    fourth: usize,
    fifth: usize,
)
    requires { (kind < 256) × (first < 256) × (second < 256) × (third < 256) × (fourth < 256) × (fifth < 256) }
    ensures { log.new ≡ noted (kind ∷ first ∷ second ∷ third ∷ fourth ∷ fifth ∷ []) log.old }
{
    if log.len() == 0 {
        return;
    }
    let count = steps_noted(log);
    if count < 729 {
        let step = [
            kind as u8,
            first as u8,
            second as u8,
            third as u8,
            fourth as u8,
            fifth as u8,
        ];
        for (part, byte) in step.iter().enumerate() {
            put(log, 6 * count + part, *byte);
        }
        put(log, 4374, ((count + 1) % 256) as u8);
        put(log, 4375, ((count + 1) / 256) as u8);
    }
}

// Steps with their count; the bytes after them are 0. A fixed buffer: the engine has no heap.
#[derive(Clone, Copy)]
pub struct Steps {
    pub bytes: [u8; 4374],
    pub count: usize,
}

// The log as a value.
pub fn steps_of(log: &[u8; 4376]) -> Steps
    ensures { result ≡ steps_held log.now }
{
    let mut bytes = [0u8; 4374];
    bytes.copy_from_slice(&log[..4374]);
    Steps {
        bytes,
        count: steps_noted(log),
    }
}
