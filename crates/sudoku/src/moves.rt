// Records moved in either direction.
ghost use Rattle.std.specs.Prelude.{◌≡◌, length};
ghost use Rattle.stops.specs.Answer.{answer_of};
ghost use Rattle.record.specs.Moves.{move_of, move_written};
ghost use Rattle.sudoku.specs.Records.{moved_from};

use stops::Stop;

pub fn move_either(back: bool, bytes: &[u8], moved: &mut [u8]) -> Result<usize, Stop>
    ensures { (answer_of result ≡ move_of (moved_from back) bytes.now (length moved.old)) × (moved.new ≡ move_written (moved_from back) bytes.now moved.old) }
{
    if back {
        return record::move_back(bytes, moved);
    }
    record::move_record(bytes, moved)
}
