// What holds of a call from its begin to its end.
ghost use Rattle.oopsbox_c.specs.WholeFlights.{FlightsAreWhole};

/// The stores that are handed out, from a begin on until the call is finished, are all stores of the call, in order.
pub fn flights_are_whole()
    ensures { FlightsAreWhole }
{}
