use crate::arrows::draw_hand_over;
use crate::growing_text::Page;
use crate::looks::hue;
use crate::plans::{MOST_SLOTS, Moment, Plan};
use crate::sheets::Sheet;
use pif_core::Core;
use pif_text_core::owner_of;
use pif_types::{Health, MutexId, Tid};
use pif_word::owner_died;

/// Who was last seen to hold a mutex, and its health as POSIX has it; since when, and where that is drawn in the lane.
#[derive(Clone, Copy)]
pub struct Bar {
    mutex: MutexId,
    owner: Option<Tid>,
    health: Health,
    since: Moment,
    slot: u32,
}

impl Bar {
    /// The bar of a mutex that this thread holds, or nobody; its health is Fine.
    pub fn new(mutex: MutexId, owner: Option<Tid>, since: Moment) -> Bar {
        Bar {
            mutex,
            owner,
            health: Health::Fine,
            since,
            slot: 0,
        }
    }

    /// Looks at who holds the mutex behind a command, and if the sheet is open, draws what was before if that changed.
    /// In the lane of a new owner it is drawn in this place.
    fn see(&mut self, core: &Core, slot: u32, moment: Moment, plan: &Plan, sheet: &mut Sheet) {
        let owner = owner_of(core, self.mutex);
        let health = health_of(core, self.mutex);
        if owner == self.owner && health == self.health {
            return;
        }
        let slot = if owner == self.owner { self.slot } else { slot };
        if sheet.is_open {
            self.close(moment, plan, sheet);
            self.draw_given(owner, slot, moment, plan, &mut sheet.arrows);
            self.draw_loss(health, moment, plan, &mut sheet.arrows);
        }
        self.owner = owner;
        self.health = health;
        self.since = moment;
        self.slot = slot;
    }

    /// Draws that the mutex became unusable; nothing if it was so before, or isn't.
    fn draw_loss(&self, health: Health, moment: Moment, plan: &Plan, out: &mut Page) {
        if self.health == Health::Unusable {
            return;
        }
        if let (Some(owner), Health::Unusable) = (self.owner, health) {
            out.fill(
                "<g transform=\"translate({} {})\">",
                &[plan.x(moment.column), plan.bar(owner, self.slot)],
            );
            out.fill(
                "<title>m{} is unusable, line {}</title>",
                &[self.mutex.get(), moment.line],
            );
            out.fill(
                "<text class=\"number hot\" x=\"4\" y=\"8\">m{} unusable</text></g>\n",
                &[self.mutex.get()],
            );
        }
    }

    /// Draws that the thread that held the mutex gave it to this one. Nothing is drawn if it is the same, if nobody held
    /// the mutex, or if nobody does now.
    fn draw_given(
        &self,
        owner: Option<Tid>,
        slot: u32,
        moment: Moment,
        plan: &Plan,
        out: &mut Page,
    ) {
        if let (Some(from), Some(to)) = (self.owner, owner) {
            if from.get() != to.get() {
                let start = plan.bar(from, self.slot);
                let end = plan.bar(to, slot);
                draw_hand_over(self.mutex, (from, start), (to, end), moment, plan, out);
            }
        }
    }

    /// Draws that a thread held the mutex up to a moment; nothing if nobody did.
    pub fn close(&self, until: Moment, plan: &Plan, sheet: &mut Sheet) {
        let Some(owner) = self.owner else {
            return;
        };
        let (mutex, since, out) = (self.mutex.get(), self.since, &mut sheet.bars);
        let width = plan.length(since.column, until.column);
        out.fill(
            "<g class=\"h{}\" transform=\"translate({} {})\">",
            &[
                hue(self.mutex),
                plan.x(since.column),
                plan.bar(owner, self.slot),
            ],
        );
        let is_inconsistent = self.health == Health::Inconsistent;
        out.fill("<title>t{} holds m{}", &[owner.get(), mutex]);
        out.words(if is_inconsistent {
            ", inconsistent"
        } else {
            ""
        });
        out.fill(", lines {} to {}</title>", &[since.line, until.line]);
        out.fill(
            "<rect class=\"bar\" width=\"{}\" height=\"10\" rx=\"2\"/>",
            &[width],
        );
        out.fill("<text class=\"on-bar\" x=\"5\" y=\"8\">m{}", &[mutex]);
        if is_inconsistent {
            out.words(if width >= 80 { " inconsistent" } else { " !" });
        }
        out.words("</text></g>\n");
    }
}

/// Looks at who holds the mutexes, and if the sheet is open, draws what changed.
pub fn see_bars(bars: &mut [Bar], core: &Core, moment: Moment, plan: &Plan, sheet: &mut Sheet) {
    for place in 0..bars.len() {
        let owner = owner_of(core, bars[place].mutex);
        let slot = free_slot(bars, owner);
        bars[place].see(core, slot, moment, plan, sheet);
    }
}

/// The health of a mutex as POSIX has it: once the owner of a robust one has ended it is inconsistent, though its
/// health word is written only when a thread takes it over.
fn health_of(core: &Core, mutex: MutexId) -> Health {
    match (core.kind(mutex), core.health(mutex)) {
        (Some((_, true)), Some(Health::Fine)) => {
            if owner_died(core.word(mutex).unwrap_or(0)) {
                Health::Inconsistent
            } else {
                Health::Fine
            }
        }
        (_, Some(health)) => health,
        _ => Health::Fine,
    }
}

/// The first place in the lane of a thread that no bar takes, or else the last one.
fn free_slot(bars: &[Bar], owner: Option<Tid>) -> u32 {
    let Some(owner) = owner else {
        return 0;
    };
    for slot in 0..MOST_SLOTS {
        let is_taken = bars
            .iter()
            .any(|bar| bar.owner == Some(owner) && bar.slot == slot);
        if !is_taken {
            return slot;
        }
    }
    MOST_SLOTS - 1
}
