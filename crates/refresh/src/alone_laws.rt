//! The law of refreshes. It is the contract of a function that does nothing but bring in the law that its proof needs.
ghost use Rattle.refresh.specs.Alone.{RefreshesAloneAreRefreshes};

use chan_calls::copies_alone_are_refreshes;

/// The refreshes of a caller that is alone are those of calls that are served one after the other.
pub fn refreshes_alone_are_refreshes()
    ensures { RefreshesAloneAreRefreshes }
{
    copies_alone_are_refreshes();
}
