//! What the laws of encodings ask of an envelope holds of each that there is in memory. The functions go over an envelope
//! and do nothing else: they are called for what they promise.
ghost use Rattle.encoding_laws.specs.Allowed.{HasAllowedTexts};
ghost use Rattle.encoding_laws.specs.Fitting.{HasFittingTexts};
ghost use Rattle.encoding_laws.specs.Identifiers.{HasDistinctIdentifiers};
ghost use Rattle.mos_values.specs.MessageViews.{envelope_events};
ghost use Rattle.value_facts.specs.FitValues.{IsFitEnvelope};

use crate::messages::message_fits;
use crate::texts::{id_fits, optional_opt_id_fits};
use mos_values::Envelope;

fn parts_fit(e: &Envelope)
    ensures { IsFitEnvelope e.now }
{
    id_fits(&e.mos);
    id_fits(&e.ncs);
    optional_opt_id_fits(&e.message_id);
    message_fits(&e.message);
}

/// Each text of an envelope is in the canonical form of its field, XML allows the characters of its texts and raw elements,
/// and no two stories of an order and no two items of a story have the same ID. It holds whatever the envelope.
#[tactic(auto, using(crate::proofs::EnvelopeTexts::fitting, crate::proofs::EnvelopeTexts::allowed, crate::proofs::EnvelopeTexts::distinct))]
pub fn envelope_fits(e: &Envelope)
    ensures fitting { HasFittingTexts (envelope_events e.now) }
    ensures allowed { HasAllowedTexts (envelope_events e.now) }
    ensures distinct { HasDistinctIdentifiers e.now.message }
{
    parts_fit(e);
}
