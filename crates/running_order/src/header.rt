//! New fields in place of old ones in a header.
ghost use Rattle.std.specs.Prelude.{◌≡◌};
ghost use Rattle.mos_edits.specs.Orders.{given_or, given_or_kept, list_or_kept, patched};

use mos_fields::Slug;
use mos_values::{Header, HeaderPatch, Unreads};

// A field that is given replaces the old one.
fn put_field<T: Drop>(field: &mut Option<T>, given: Option<T>)
    ensures { field.new ≡ given_or_kept given field.old }
{
    if let Some(value) = given {
        *field = Some(value);
    }
}

// A slug that is given replaces the old one.
fn put_slug(slug: &mut Slug, given: Option<Slug>)
    ensures { slug.new ≡ given_or given slug.old }
{
    if let Some(value) = given {
        *slug = value;
    }
}

// A list that isn't empty replaces the whole list.
fn put_list(list: &mut Unreads, given: Unreads)
    ensures { list.new ≡ list_or_kept given list.old }
{
    if !given.is_empty() {
        *list = given;
    }
}

/// Puts each field that a patch gives in place of the old one. The roID stays.
pub fn put_patch(header: &mut Header, patch: HeaderPatch)
    ensures { header.new ≡ patched patch header.old }
{
    let HeaderPatch {
        ro: _ro,
        slug,
        channel,
        ed_start,
        ed_dur,
        trigger,
        macro_in,
        macro_out,
        metadata,
        others,
    } = patch;
    put_slug(&mut header.slug, slug);
    put_field(&mut header.channel, channel);
    put_field(&mut header.ed_start, ed_start);
    put_field(&mut header.ed_dur, ed_dur);
    put_field(&mut header.trigger, trigger);
    put_field(&mut header.macro_in, macro_in);
    put_field(&mut header.macro_out, macro_out);
    put_list(&mut header.metadata, metadata);
    put_list(&mut header.others, others);
}
