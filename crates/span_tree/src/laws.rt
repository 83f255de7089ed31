//! Laws of the serial order and of the dag, each the contract of a function that does nothing.

ghost use Rattle.span_tree.specs.Laws.{NotParallelInRow, NotParallelBelow, OneIsFirst, OneOfThree, OrderIsOfPlaces, ParallelIsSymmetric, PrecedesOn, RaceFreeIsSerial, ThreePlaces};

/// The serial order has each place once, and nothing else.
pub fn order_is_of_places()
    ensures { OrderIsOfPlaces }
{}

/// Of two different places exactly one is serially first.
pub fn one_is_first()
    ensures { OneIsFirst }
{}

/// Of two different places one precedes the other, or they are parallel.
pub fn one_of_three()
    ensures { OneOfThree }
{}

/// What precedes a place precedes what that place precedes.
pub fn precedes_on()
    ensures { PrecedesOn }
{}

/// It does not matter which of two parallel places is named first.
pub fn parallel_is_symmetric()
    ensures { ParallelIsSymmetric }
{}

/// In serial order, what is parallel to a place that is parallel to a third one is parallel to the third one.
pub fn three_places()
    ensures { ThreePlaces }
{}

/// Acts of one row are never parallel.
pub fn not_parallel_in_row()
    ensures { NotParallelInRow }
{}

/// A Spawn act and what lies below it are never parallel.
pub fn not_parallel_below()
    ensures { NotParallelBelow }
{}

/// A location consistent history without races reads serially.
pub fn race_free_is_serial()
    ensures { RaceFreeIsSerial }
{}
