//! The renderer list as the renderer goes through it.
//!
//! Laws on definitions alone. In the list that `render_list` writes no load is lost, each load, store and
//! sub-list is done behind the head and at its own tile's coordinates, and the sub-lists come behind the
//! wait for the binner; what has to hold of a load, a store or a sub-list at its tile is a parameter. And
//! each number of its packets fits its field, so that its bytes are read as these packets again.
#![tactic(auto)]

ghost use Rattle.std.specs.Prelude.{ℕ, ◌≤◌, Bool, IsTrue, List, Option, is_some};
ghost use Rattle.buffer_table.specs.Table.{most_place};
ghost use Rattle.job_format.specs.declared.file.Frame.{Frame};
ghost use Rattle.packets.specs.declared.packet.Packet.{Packet};
ghost use Rattle.job_format.specs.File.{FrameFits};
ghost use Rattle.render_list.specs.Frame.{IsTileSet, IsSetupFor};
ghost use Rattle.render_list.specs.Text.{render_slots};
ghost use Rattle.render_walks.specs.Walks.{WalksTo, OwesFine, IsBetween, at_start, AllFit, PlacesFit, GridFits};

/// The law that a renderer list walks, whatever test is asked of loads, stores and sub-lists, where the
/// packets of each tile pass it at the tile's coordinates. `proofs::Walking::render_walks` is the same of
/// any fact in place of a test.
pub fn renderer_lists_walk()
    ensures { (fine : Packet → ℕ → ℕ → Bool) (frame : Frame) (places : List (Option ℕ))
        (grid : Option (ℕ × ℕ)) (slot : ℕ)
        → IsTileSet frame → OwesFine (λ p x y. IsTrue (fine p x y)) frame places grid slot
        → WalksTo (λ p x y. IsTrue (fine p x y)) (IsBetween (is_some grid)) at_start
        (render_slots frame places grid slot) }
{}

/// The law that each number of a renderer list fits its field, where those of the frame, the surfaces'
/// places and the binner's grid fit theirs, and the tile slot lies inside the greatest memory.
pub fn renderer_lists_fit()
    ensures { (frame : Frame) (places : List (Option ℕ)) (grid : Option (ℕ × ℕ)) (slot : ℕ)
        → FrameFits frame → IsSetupFor frame places → PlacesFit places → GridFits grid → slot ≤ most_place
        → AllFit (render_slots frame places grid slot) }
{}
