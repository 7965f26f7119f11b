//! Media objects.
ghost use Rattle.std.specs.Prelude.{◌≡◌, IfOk};

use crate::Unreads;
use crate::copies::triple;
use mos_fields::{Air, Id, NoMemory, ObjType, Rev, Samples, Slug, Text, Unread, pair_ok};

/// A media object, as mosObj describes it.
#[derive(Drop)]
pub struct MosObj {
    /// objID
    pub id: Id,
    /// objSlug
    pub slug: Option<Slug>,
    /// mosAbstract, as it was written
    pub mos_abstract: Option<Unread>,
    /// objGroup
    pub group: Option<Text>,
    /// objType
    pub obj_type: Option<ObjType>,
    /// objTB, the samples of a second
    pub time_base: Option<Samples>,
    /// objRev
    pub rev: Option<Rev>,
    /// objDur
    pub dur: Option<Samples>,
    /// status
    pub status: Option<Text>,
    /// objAir
    pub air: Option<Air>,
    /// objPaths, as it was written
    pub obj_paths: Option<Unread>,
    /// createdBy
    pub created_by: Option<Text>,
    /// created, a time that is kept as text
    pub created: Option<Text>,
    /// changedBy
    pub changed_by: Option<Text>,
    /// changed, a time that is kept as text
    pub changed: Option<Text>,
    /// description, as it was written
    pub description: Option<Unread>,
    /// mosExternalMetadata, each element as it was written
    pub metadata: Unreads,
    /// the elements of other names, in order, each as it was written
    pub others: Unreads,
}

impl MosObj {
    /// The same object again, in memory of its own. The only error is that memory runs out.
    pub fn try_clone(&self) -> Result<Self, NoMemory>
        ensures { IfOk result (λ t. t ≡ self.now) }
    {
        let (
            id,
            (
                ((slug, mos_abstract, group), (status, obj_paths, created_by)),
                ((created, changed_by, changed), (description, metadata, others)),
            ),
        ) = pair_ok(
            self.id.try_clone(),
            pair_ok(
                pair_ok(
                    triple(&self.slug, &self.mos_abstract, &self.group),
                    triple(&self.status, &self.obj_paths, &self.created_by),
                ),
                pair_ok(
                    triple(&self.created, &self.changed_by, &self.changed),
                    triple(&self.description, &self.metadata, &self.others),
                ),
            ),
        )?;
        Ok(MosObj {
            id,
            slug,
            mos_abstract,
            group,
            status,
            obj_paths,
            created_by,
            created,
            changed_by,
            changed,
            description,
            metadata,
            others,
            obj_type: self.obj_type,
            time_base: self.time_base,
            rev: self.rev,
            dur: self.dur,
            air: self.air,
        })
    }
}
