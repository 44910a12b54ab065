// Why a vector could not be replayed.
ghost use Rattle.std.specs.Prelude.{◌≡◌};
ghost use Rattle.case_io.specs.declared.broken.Broken.TheVariants.{Failed};

use std::io;

// Where the vector after one that could not be replayed starts is not known.
#[derive(Debug, Drop)]
pub enum Broken {
    // The input ends in it.
    Ended,
    // The buffers do not hold it.
    TooLong,
    // An error of the input or of the output.
    Failed(io::Error),
}

impl From<io::Error> for Broken {
    ghost from_gives = { λ e broken. broken ≡ Failed e };

    fn from(e: io::Error) -> Broken {
        Broken::Failed(e)
    }
}
