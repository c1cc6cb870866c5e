//! Laws of what happened between two looks. A law is a function without a body whose contract is
//! the law.
ghost use Rattle.std.specs.Prelude.{◌≡◌, ◌&&◌, Bool, Option, [], IsTrue, false, is_none, is_some};
ghost use Rattle.std.specs.List.{list_any};
ghost use Rattle.std.specs.List.Sorted.{IsStrictlySortedBy};
ghost use Rattle.std.specs.FinMap as map;
ghost use Rattle.retro_path.specs.Order.{path_cmp, path_eq};
ghost use Rattle.retro_path.specs.Path.{PathValue};
ghost use Rattle.casebook_watch.specs.Seen.{gone_paths, is_changed, is_listed, is_read, passes};
ghost use Rattle.casebook_watch.specs.Seen.{paths_where};
ghost use Rattle.casebook_watch.specs.Sights.{Sights};
ghost use Rattle.casebook_watch.specs.declared.sight.Sight.{Sight};

/// States that a list of paths names a path exactly if the path has a sight after that passes the
/// test, and that a path is gone exactly if it has a sight before and none after. So no list names
/// a path without a sight in both looks.
pub fn paths_are_named_exactly()
    ensures passes { (test : Option Sight → Sight → Bool) (before after : Sights) (p : PathValue)
        → list_any (path_eq p) (paths_where test before after)
        ≡ passes test (map.get before p) (map.get after p) }
    ensures gone { (before after : Sights) (p : PathValue)
        → list_any (path_eq p) (gone_paths before after)
        ≡ (is_some (map.get before p) && is_none (map.get after p)) }
{}

/// States that each list of paths is in order, so that it names a path once.
pub fn paths_are_in_order()
    ensures passes { (test : Option Sight → Sight → Bool) (before after : Sights)
        → IsStrictlySortedBy path_cmp (paths_where test before after) }
    ensures gone { (before after : Sights)
        → IsStrictlySortedBy path_cmp (gone_paths before after) }
{}

/// States that no path is both changed and gone.
pub fn no_path_is_changed_and_gone()
    ensures { (before after : Sights) (p : PathValue)
        → IsTrue (list_any (path_eq p) (paths_where is_changed before after))
        → list_any (path_eq p) (gone_paths before after) ≡ false }
{}

/// States that nothing happened between two equal looks.
pub fn equal_looks_show_nothing()
    ensures read { (sights : Sights) → paths_where is_read sights sights ≡ [] }
    ensures listed { (sights : Sights) → paths_where is_listed sights sights ≡ [] }
    ensures changed { (sights : Sights) → paths_where is_changed sights sights ≡ [] }
    ensures gone { (sights : Sights) → gone_paths sights sights ≡ [] }
{}
