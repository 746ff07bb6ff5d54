// The law of a session, and what its rules promise in any memory, at the kinds of setting and of summary that the engine has.
ghost use Rattle.history.specs.Laws.{Law};
ghost use Rattle.session.specs.Promises.{RulesStand};
ghost use Rattle.settings.specs.Colours.{colours};
ghost use Rattle.settings.specs.Links.{links};
ghost use Rattle.summaries.specs.Blooms.{bloom};
ghost use Rattle.summaries.specs.ExactLists.{exact_list};

use history::law::law_holds;
use session::rules::rules_stand;
use settings::colour::Colour;
use settings::link::Link;
use summaries::bloom::Bloom;
use summaries::exact_list::ExactList;

/// The law holds of sessions of colours and of links, with exact lists and with Bloom summaries.
pub fn law_of_each_kind()
    ensures exact_colours { Law exact_list colours }
    ensures bloom_colours { Law bloom colours }
    ensures exact_links { Law exact_list links }
    ensures bloom_links { Law bloom links }
    ensures any_memory { RulesStand exact_list colours }
    ensures any_memory_of_links { RulesStand bloom links }
{
    law_holds::<Colour, ExactList>();
    law_holds::<Colour, Bloom>();
    law_holds::<Link, ExactList>();
    law_holds::<Link, Bloom>();
    rules_stand::<Colour, ExactList>();
    rules_stand::<Link, Bloom>();
}
