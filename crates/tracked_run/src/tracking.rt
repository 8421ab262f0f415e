use crate::changes::{look_fault, note_fault, note_move, note_restore, note_save};
use crate::held::Held;
use crate::noting::note_passing;
use flow_base::NoMemory;
use flow_graph::Events;
use region_machine::Observer;
use run_labels::MeasureFault;
use rv32im_machine::{Passer, Passing, Place, Seen, Shape, Source};
use shadow_masks::Shadow;
use transfer_rules::RuleBook;

/// The observer of a measured run: for a turn it keeps the label of each place and hands the turn's events on. A look
/// at what may depend on the secret is kept, and the turn goes on to its end.
#[derive(Drop)]
pub(crate) struct Tracking<'t, E> {
    /// Lent for the turn.
    pub shadow: &'t mut Shadow,
    /// Lent for the turn.
    pub events: &'t mut E,
    pub book: &'t RuleBook,
    pub held: Held,
    /// The number of the region that the turn enters, 0: of none.
    pub region: u16,
    /// The first look at what may depend on the secret.
    pub refused: Option<MeasureFault>,
}

impl<E: Events> Passer for Tracking<'_, E> {
    ghost use Rattle.std.specs.Prelude.{Some};
    ghost use Rattle.std.proofs.Common.{refl};
    ghost use Rattle.tracked_run.specs.Labels.{labels_of};
    ghost use Rattle.tracked_run.specs.Private.Tracking.{Left, Tracks, tracks_Ended};

    type Stop = NoMemory;

    ghost Tape = { Left E };

    ghost tape = { λ side. record {
      shades = side.shadow.now;
      events = side.events.now;
      refused = side.refused;
      shadow_lent = side.shadow.ghost_name;
      events_lent = side.events.ghost_name;
    } };

    ghost memory = { λ side. Some side.shadow.now.base };

    ghost Plays = { λ side walk out.
        Tracks E.stands_for side.book.now.table side.region (labels_of side.shadow.now side.held)
        (record {
          shades = side.shadow.now;
          events = side.events.now;
          refused = side.refused;
          shadow_lent = side.shadow.ghost_name;
          events_lent = side.events.ghost_name;
        }) walk out };

    #[inline(always)]
    fn look(&mut self, seen: Seen, _value: u32) -> Result<(), NoMemory> {
        let fault = look_fault(self.shadow, self.region, seen);
        note_fault(&mut self.refused, fault);
        Ok(())
    }

    #[inline(always)]
    fn pass(&mut self, passing: Passing) -> Result<u32, NoMemory> {
        note_passing(self.events, self.shadow, &mut self.held, self.book, passing)?;
        Ok(passing.value)
    }

    fn move_to(
        &mut self,
        place: Place,
        shape: Shape,
        source: Source,
        _value: u32,
    ) -> Result<(), NoMemory> {
        note_move(self.shadow, &mut self.held, place, shape, source)?;
        Ok(())
    }

    fn save(&mut self) -> Result<(), NoMemory> {
        note_save(self.shadow);
        Ok(())
    }

    fn restore(&mut self, registers: &[u8]) -> Result<bool, NoMemory> {
        note_restore(self.shadow, registers);
        Ok(false)
    }

    ghost at_end = { λ side state.
        tracks_Ended E.stands_for side.book.now.table side.region (labels_of side.shadow.now side.held)
        (record {
          shades = side.shadow.now;
          events = side.events.now;
          refused = side.refused;
          shadow_lent = side.shadow.ghost_name;
          events_lent = side.events.ghost_name;
        }) state refl };
}

impl<E: Events> Observer for Tracking<'_, E> {
    ghost use Rattle.tracked_run.specs.Labels.{labels_of};
    ghost use Rattle.tracked_run.specs.Private.Tracking.{tracks_real};

    ghost real = { λ side walk state after told.
        tracks_real E.stands_for side.book.now.table side.region (labels_of side.shadow.now side.held)
        (record {
          shades = side.shadow.now;
          events = side.events.now;
          refused = side.refused;
          shadow_lent = side.shadow.ghost_name;
          events_lent = side.events.ghost_name;
        }) walk state after told };
}
