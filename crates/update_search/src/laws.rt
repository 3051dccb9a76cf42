//! The laws of the layers below on which searches and tries rest.
ghost use Rattle.update_search.specs.Laws.{SearchLaws};

use core_laws::what_searches_find;
use core_updates::plans_are_carried_out;
use plan_laws::{steps_keep_the_rest, tries_lock, tries_look};

/// What searches find, what their steps keep, and where a failure is counted. The call does nothing.
pub fn search_laws()
    ensures { SearchLaws }
{
    tries_lock();
    tries_look();
    steps_keep_the_rest();
    what_searches_find();
    plans_are_carried_out();
}
