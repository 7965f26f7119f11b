//! The same of running orders and of what acts on them.
ghost use Rattle.mos_fields.specs.declared.form.Form.TheVariants as forms;
ghost use Rattle.value_facts.specs.FitValues.{AreFitGroups, AreFitItems, AreFitPatches, AreFitStories, IsFitAction, IsFitBody, IsFitGroup, IsFitHeader, IsFitItem, IsFitPatch, IsFitRoAck, IsFitSend, IsFitStat, IsFitStory, IsText};

use crate::texts::{
    id_fits, opt_id_fits, opt_ids_fit, optional_opt_id_fits, optional_samples_fit,
    optional_slug_fits, optional_text_fits, optional_unread_fits, slug_fits, text_fits,
    unread_fits, unreads_fit,
};
use mos_fields::OptId;
use mos_values::{
    AckGroup, Action, ElementStat, Header, HeaderPatch, Item, OrderBody, RoAck, Story, StorySend,
};

fn header_fits(header: &Header)
    ensures { IsFitHeader header.now }
{
    id_fits(&header.ro);
    slug_fits(&header.slug);
    optional_text_fits(&header.channel);
    optional_text_fits(&header.ed_start);
    optional_text_fits(&header.ed_dur);
    optional_text_fits(&header.trigger);
    optional_text_fits(&header.macro_in);
    optional_text_fits(&header.macro_out);
    unreads_fit(header.metadata.as_slice());
    unreads_fit(header.others.as_slice());
}

pub fn patch_fits(patch: &HeaderPatch)
    ensures { IsFitPatch patch.now }
{
    id_fits(&patch.ro);
    optional_slug_fits(&patch.slug);
    optional_text_fits(&patch.channel);
    optional_text_fits(&patch.ed_start);
    optional_text_fits(&patch.ed_dur);
    optional_text_fits(&patch.trigger);
    optional_text_fits(&patch.macro_in);
    optional_text_fits(&patch.macro_out);
    unreads_fit(patch.metadata.as_slice());
    unreads_fit(patch.others.as_slice());
}

pub fn patches_fit(patches: &[HeaderPatch])
    ensures { AreFitPatches patches.now }
{
    for patch in patches {
        patch_fits(patch);
    }
}

fn item_fits(item: &Item)
    ensures { IsFitItem item.now }
{
    id_fits(&item.id);
    optional_slug_fits(&item.slug);
    opt_id_fits(&item.obj);
    opt_id_fits(&item.mos);
    optional_unread_fits(&item.mos_abstract);
    optional_unread_fits(&item.obj_paths);
    optional_text_fits(&item.channel);
    optional_samples_fit(&item.ed_start);
    optional_samples_fit(&item.ed_dur);
    optional_samples_fit(&item.user_timing_dur);
    optional_text_fits(&item.trigger);
    optional_text_fits(&item.macro_in);
    optional_text_fits(&item.macro_out);
    unreads_fit(item.metadata.as_slice());
    unreads_fit(item.others.as_slice());
}

fn items_fit(items: &[Item])
    ensures { AreFitItems items.now }
{
    for item in items {
        item_fits(item);
    }
}

fn story_fits(story: &Story)
    ensures { IsFitStory story.now }
{
    id_fits(&story.id);
    optional_slug_fits(&story.slug);
    optional_text_fits(&story.num);
    unreads_fit(story.metadata.as_slice());
    unreads_fit(story.others.as_slice());
    items_fit(story.items.as_slice());
    story.has_distinct_items();
}

fn stories_fit(stories: &[Story])
    ensures { AreFitStories stories.now }
{
    for story in stories {
        story_fits(story);
    }
}

#[tactic(auto, using(crate::proofs::Distinct::stories_distinct))]
pub fn body_fits(body: &OrderBody)
    ensures { IsFitBody body.now }
{
    header_fits(&body.header);
    stories_fit(body.stories.as_slice());
    body.has_distinct_stories();
}

fn two_ids_fit(first: &OptId, second: &OptId)
    ensures first { IsText forms.OptId first.now }
    ensures second { IsText forms.OptId second.now }
{
    opt_id_fits(first);
    opt_id_fits(second);
}

pub fn action_fits(action: &Action)
    ensures { IsFitAction action.now }
{
    match action {
        Action::InsertStories { target, sources } => {
            opt_id_fits(target);
            stories_fit(sources.as_slice());
        }
        Action::ReplaceStory { target, sources } => {
            opt_id_fits(target);
            stories_fit(sources.as_slice());
        }
        Action::InsertItems {
            story,
            target,
            sources,
        } => {
            two_ids_fit(story, target);
            items_fit(sources.as_slice());
        }
        Action::ReplaceItem {
            story,
            target,
            sources,
        } => {
            two_ids_fit(story, target);
            items_fit(sources.as_slice());
        }
        Action::MoveStories { target, sources } => {
            opt_id_fits(target);
            opt_ids_fit(sources.as_slice());
        }
        Action::MoveItems {
            story,
            target,
            sources,
        } => {
            two_ids_fit(story, target);
            opt_ids_fit(sources.as_slice());
        }
        Action::DeleteStories { sources } => opt_ids_fit(sources.as_slice()),
        Action::DeleteItems { story, sources } => {
            opt_id_fits(story);
            opt_ids_fit(sources.as_slice());
        }
        Action::SwapStories { first, second } => two_ids_fit(first, second),
        Action::SwapItems {
            story,
            first,
            second,
        } => {
            opt_id_fits(story);
            two_ids_fit(first, second);
        }
    }
}

pub fn stat_fits(stat: &ElementStat)
    ensures { IsFitStat stat.now }
{
    id_fits(&stat.ro);
    optional_opt_id_fits(&stat.story);
    optional_opt_id_fits(&stat.item);
    optional_opt_id_fits(&stat.obj);
    optional_text_fits(&stat.channel);
    text_fits(&stat.status);
}

fn group_fits(group: &AckGroup)
    ensures { IsFitGroup group.now }
{
    opt_id_fits(&group.story);
    opt_id_fits(&group.item);
    opt_id_fits(&group.obj);
    optional_text_fits(&group.channel);
    text_fits(&group.status);
}

fn groups_fit(groups: &[AckGroup])
    ensures { AreFitGroups groups.now }
{
    for group in groups {
        group_fits(group);
    }
}

pub fn ro_ack_fits(ack: &RoAck)
    ensures { IsFitRoAck ack.now }
{
    opt_id_fits(&ack.ro);
    slug_fits(&ack.status);
    groups_fit(ack.groups.as_slice());
}

pub fn send_fits(send: &StorySend)
    ensures { IsFitSend send.now }
{
    id_fits(&send.ro);
    id_fits(&send.story);
    optional_slug_fits(&send.slug);
    optional_text_fits(&send.num);
    unread_fits(&send.body);
    unreads_fit(send.metadata.as_slice());
    unreads_fit(send.others.as_slice());
}
