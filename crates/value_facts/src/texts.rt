//! The texts that the code's types hold are in their forms. Each function goes over a value and does nothing else: it is
//! called for what it promises.
ghost use Rattle.mos_fields.specs.Values.{rev_text, samples_text};
ghost use Rattle.mos_fields.specs.declared.form.Form.TheVariants as forms;
ghost use Rattle.value_facts.specs.FitValues.{AreTexts, IsText, IsTextIfAny, IsWrittenIfAny};

use mos_fields::{Id, OptId, Rev, Samples, Slug, Text, Unread};

#[tactic(auto, using(crate::proofs::FormLemmas::reads_text))]
pub fn text_fits(text: &Text)
    ensures { IsText forms.Text text.now }
{
    let _units = text.units();
}

#[tactic(auto, using(crate::proofs::FormLemmas::reads_text))]
pub fn unread_fits(raw: &Unread)
    ensures { IsText forms.Text raw.now }
{
    text_fits(raw.text());
}

#[tactic(auto, using(crate::proofs::FormLemmas::reads_id, crate::proofs::FormLemmas::reads_key))]
pub fn id_fits(id: &Id)
    ensures id { IsText forms.Id id.now }
    ensures key { IsText forms.Key id.now }
{
    let text = id.text();
    let _units = text.units();
}

#[tactic(auto, using(crate::proofs::FormLemmas::reads_opt_id))]
pub fn opt_id_fits(id: &OptId)
    ensures { IsText forms.OptId id.now }
{
    let text = id.text();
    let _units = text.units();
}

#[tactic(auto, using(crate::proofs::FormLemmas::reads_slug))]
pub fn slug_fits(slug: &Slug)
    ensures { IsText forms.Slug slug.now }
{
    let text = slug.text();
    let _units = text.units();
}

#[tactic(auto, using(crate::proofs::NumberTexts::samples_read, crate::proofs::NumberTexts::samples_allowed))]
pub fn samples_fit(samples: Samples)
    ensures { IsText forms.Samples (samples_text samples) }
{
    let _count = samples.count();
}

#[tactic(auto, using(crate::proofs::NumberTexts::rev_read, crate::proofs::NumberTexts::rev_allowed))]
pub fn rev_fits(rev: Rev)
    ensures { IsText forms.Rev (rev_text rev) }
{
    let _number = rev.number();
}

pub fn optional_text_fits(field: &Option<Text>)
    ensures { IsTextIfAny forms.Text field.now }
{
    if let Some(text) = field {
        text_fits(text);
    }
}

pub fn optional_unread_fits(field: &Option<Unread>)
    ensures { IsTextIfAny forms.Text field.now }
{
    if let Some(raw) = field {
        unread_fits(raw);
    }
}

pub fn optional_opt_id_fits(field: &Option<OptId>)
    ensures { IsTextIfAny forms.OptId field.now }
{
    if let Some(id) = field {
        opt_id_fits(id);
    }
}

pub fn optional_slug_fits(field: &Option<Slug>)
    ensures { IsTextIfAny forms.Slug field.now }
{
    if let Some(slug) = field {
        slug_fits(slug);
    }
}

pub fn optional_samples_fit(field: &Option<Samples>)
    ensures { IsWrittenIfAny samples_text forms.Samples field.now }
{
    if let Some(samples) = field {
        samples_fit(*samples);
    }
}

pub fn optional_rev_fits(field: &Option<Rev>)
    ensures { IsWrittenIfAny rev_text forms.Rev field.now }
{
    if let Some(rev) = field {
        rev_fits(*rev);
    }
}

pub fn unreads_fit(list: &[Unread])
    ensures { AreTexts forms.Text list.now }
{
    for raw in list {
        unread_fits(raw);
    }
}

pub fn opt_ids_fit(list: &[OptId])
    ensures { AreTexts forms.OptId list.now }
{
    for id in list {
        opt_id_fits(id);
    }
}
