// The difficulty figure as the four numbers.
ghost use Rattle.std.specs.Prelude.{◌≡◌};
ghost use Rattle.stops.specs.Answer.{answer_of, map};
ghost use Rattle.difficulty.specs.Ratings.{figure_in};
ghost use Rattle.sudoku.specs.Ratings.{figure_code};
ghost use Rattle.sudoku.specs.code.Fitting.{FigureFits};

use crate::codes;
use difficulty::Figure;
use stops::Stop;

// The cells that the points are divided by stand where a stop has its detail.
pub fn of_rating(rating: Result<Figure, Stop>) -> [i64; 4]
    requires { FigureFits (map figure_in (answer_of rating)) }
    ensures { result ≡ figure_code (map figure_in (answer_of rating)) }
{
    match rating {
        Err(stop) => codes::of_stop(stop, 0),
        Ok(figure) => [
            0,
            figure.cells as i64,
            figure.quotient as i64,
            figure.remainder as i64,
        ],
    }
}
