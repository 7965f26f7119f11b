//! The law of what a list of objects leaves.
ghost use Rattle.std.specs.Prelude.{◌≡◌, List, [], ◌∷◌, ◌++◌};
ghost use Rattle.mos_values.specs.declared.mos_obj.MosObj.{MosObj};
ghost use Rattle.object_table.specs.Objects.{objects_after, taken};

/// A list with one object more leaves what the list leaves, with that object taken.
pub fn one_object_more_is_taken()
    ensures { (os : List MosObj) (o : MosObj) → objects_after (os ++ o ∷ []) ≡ taken o (objects_after os) }
{}
