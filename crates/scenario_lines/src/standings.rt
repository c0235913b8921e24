//! Where the clients of a world stand.
ghost use Rattle.std.specs.Prelude.{◌≡◌, ◌++◌, OnOk};
ghost use Rattle.std.specs.Option.{option_copied};
ghost use Rattle.world_sim.specs.Standing.{state_value};
ghost use Rattle.scenario_text.specs.Lines.{fed};
ghost use Rattle.scenario_text.specs.Reports.{line};
ghost use Rattle.scenario_lines.specs.Shows.{standing_words, standings_text};

use crate::cast::Cast;
use crate::parts::put_set;
use crate::shown::state_word;
use scenario_text::page::Page;
use std::alloc::AllocError;
use world_sim::{ClientView, World};

/// Puts a line for each client, in the order of their numbers.
pub fn put_standings(page: &mut Page, cast: &Cast, world: &World) -> Result<(), AllocError>
    ensures { OnOk result (page.new ≡ page.old ++ standings_text cast.now world.now.clients) }
{
    let names = cast.names();
    for (place, name) in names.iter().enumerate() {
        if let Some(view) = world.client(place + 1) {
            put_standing(page, name.as_str(), view)?;
        }
    }
    Ok(())
}

/// Puts the line of a client: its name, its state, its id, the member epoch that it knows and the partitions that it reads.
fn put_standing(page: &mut Page, name: &str, view: ClientView<'_>) -> Result<(), AllocError>
    ensures { OnOk result (page.new ≡ page.old ++ fed (line name.now
        (standing_words (state_value view.entry.state) (option_copied view.entry.id) view.entry.epoch view.entry.own.now))) }
{
    let ClientView {
        state,
        id,
        epoch,
        own,
    } = view;
    page.put(name)?;
    page.word(state_word(state))?;
    page.word(id.unwrap_or("-"))?;
    page.number_word(epoch.as_u32())?;
    page.put(" ")?;
    put_set(page, own)?;
    page.put("\n")
}
