//! A program that runs.

ghost use Rattle.std.specs.Coded.{codes};
ghost use Rattle.std.proofs.Props.{props};
ghost use Rattle.bl_tree.specs.contracts.tree.Expr as an_expr;
ghost use Rattle.bl_tree.specs.contracts.tree.Path as a_path;
ghost use Rattle.bl_tree.specs.contracts.tree.Stmt as a_stmt;
ghost use Rattle.bl_ctree.specs.Nodes.{control_of};
ghost use Rattle.bl_ctree_store.specs.Seen.{setting_in, store_of};
ghost use Rattle.bl_ctree_run.specs.Outputs.{HasOutputs};
ghost use Rattle.bl_ctree_run.specs.inner.Spines.{ListsEnd, listed_by};

use crate::action::{Action, Step, action_at, told};
use crate::after::after;
use crate::chosen::chosen;
use crate::listed::{Kept, Next, change, listed};
use crate::points::points;
use crate::spine;
use crate::start::idle;
use crate::waking::{is_light, wake};
use bl_ctree::node::Node;
use bl_ctree::settle::{is_nil, is_settled};
use bl_ctree::waking::woken;
use bl_ctree_enabled::laws::{listings_tell_points, replaced_branches_are_listed};
use bl_ctree_enabled::{Effect, Listing, Point};
use bl_ctree_store::expansion::setting_of;
use bl_ctree_store::{Deed, Frame, Setting, Views, asks, carry_out, ticks};
use bl_eval::Did;
use bl_tree::tree::Expr;
use bl_tree::{List, NoMemory, Program, Row};
use std::alloc::Global;

/// A program that runs: its control tree and its store (docs/LANGUAGE.md, "Control trees").
#[derive(Drop)]
pub struct Tree<'a> {
    alloc: Global,
    setting: Setting<'a>,
    node: Node<'a>,
    /// The branches at the end of its spine, where they are listed.
    listing: Option<Listing<'a>>,
    frames: Vec<Frame>,
    /// Views of instances that actions used.
    views: Views,
    ghost lists: { ListsEnd (setting_in setting) (control_of node) (listed_by listing) } by { Prim.hlevel (props, codes, an_expr.the_row.coded, a_path.the_row.coded, a_stmt.the_row.coded) },
    ghost outputs: { HasOutputs (setting_in setting) (store_of frames.items) },
}

impl<'a> Tree<'a> {
    ghost use Rattle.std.specs.Prelude.{◌≡◌, ◌<◌, ◌^◌, [], true, length, map, option_map, slice_get, None, Some, IfOk, IfSome, OnOk, OnErr};
    ghost use Rattle.bl_ctree.specs.Actions.{Asks};
    ghost use Rattle.bl_ctree.specs.Control.{Idle, is_nil, is_settled, woken};
    ghost use Rattle.bl_ctree.specs.Instances.{instances_of, setting_of};
    ghost use Rattle.bl_ctree.specs.Means.{entry_items};
    ghost use Rattle.bl_ctree.specs.Points.{points};
    ghost use Rattle.bl_ctree.specs.Store.{first_store, outputs_row, woken_store};
    ghost use Rattle.bl_ctree_store.specs.Deeds.{effect_of};
    ghost use Rattle.bl_ctree_run.specs.Outputs.{count_of_outputs, outputs_of_unit};
    ghost use Rattle.bl_ctree_run.specs.Running.{Acted, acted_at, action_of, how_of, setting, state, stepped};
    ghost use Rattle.bl_ctree_enabled.specs.Spots.{spot_below, spot_of};
    ghost use Rattle.bl_ctree_run.specs.inner.Spines.{FitsAny, FitsListed, led, with_fork};
    ghost use Rattle.bl_ctree_run.specs.inner.Spots.{after_by, unread};
    ghost use Rattle.bl_ctree_run.specs.inner.Wakings.{is_light};

    /// The program before its first tick. Fails only for want of memory, as all that follows.
    pub fn start(alloc: Global, program: &'a Program) -> Result<Tree<'a>, NoMemory>
        requires { length (instances_of program.now.units program.now.entry) < 2 ^ 32 }
        ensures setting { IfOk result (λ tree. setting tree ≡ setting_of program.now.structs program.now.units program.now.entry) }
        ensures state { IfOk result (λ tree. state tree ≡ record { control = Idle (entry_items (setting tree)); store = first_store (setting tree) }) }
        ensures outputs { IfOk result (λ tree. count_of_outputs (setting tree) ≡ outputs_of_unit (slice_get program.now.units program.now.entry)) }
    {
        let setting = setting_of(alloc, program)?;
        let node = idle(alloc, &setting);
        let frames = ticks::first_frames(alloc, &setting)?.into_vec();
        let views = Views::new(alloc, program.units.len())?;
        Ok(Tree {
            alloc,
            setting,
            node,
            listing: None,
            frames,
            views,
        })
    }

    /// Begins a tick over the row of inputs. After want of memory the tree is as before.
    pub fn wake(&mut self, row: &Row) -> Result<(), NoMemory>
        ensures setting { setting self.new ≡ setting self.old }
        ensures state { OnOk result
            (state self.new ≡ record { control = woken (state self.old).control; store = woken_store row.now (state self.old).store }) }
        ensures memory { OnErr result (state self.new ≡ state self.old) }
    {
        self.listing = None;
        if is_light(&self.node) {
            self.wake_here(row)
        } else {
            self.wake_anew(row)
        }
    }

    /// The same of a tree that is woken where it lies.
    fn wake_here(&mut self, row: &Row) -> Result<(), NoMemory>
        requires light { is_light (state self.old).control ≡ true }
        requires unlisted { self.old.listing ≡ None }
        ensures setting { setting self.new ≡ setting self.old }
        ensures state { OnOk result
            (state self.new ≡ record { control = woken (state self.old).control; store = woken_store row.now (state self.old).store }) }
        ensures memory { OnErr result (state self.new ≡ state self.old) }
    {
        ticks::wake(self.alloc, &mut self.frames, row)?;
        wake(&mut self.node);
        Ok(())
    }

    /// The same of any tree, which becomes a new one.
    fn wake_anew(&mut self, row: &Row) -> Result<(), NoMemory>
        requires unlisted { self.old.listing ≡ None }
        ensures setting { setting self.new ≡ setting self.old }
        ensures state { OnOk result
            (state self.new ≡ record { control = woken (state self.old).control; store = woken_store row.now (state self.old).store }) }
        ensures memory { OnErr result (state self.new ≡ state self.old) }
    {
        let node = woken(self.alloc, &self.node)?;
        ticks::wake(self.alloc, &mut self.frames, row)?;
        self.node = node;
        Ok(())
    }

    fn points(&self) -> Result<List<Point<'a>>, NoMemory>
        ensures { IfOk result (λ found. map spot_of found ≡ map (spot_below (setting self.now) []) (points (setting self.now) 0 (state self.now).control)) }
    {
        let mut found = List::new(self.alloc);
        points(self.alloc, &self.setting, 0, &self.node, &[], &mut found)?;
        Ok(found)
    }

    /// The actions that may be done next, in source order.
    pub fn actions(&self) -> Result<List<Action>, NoMemory>
        ensures { IfOk result (λ actions. actions ≡ map action_of (points (setting self.now) 0 (state self.now).control)) }
    {
        let found = self.points()?;
        told(self.alloc, &found)
    }

    /// How many actions may be done next. Whatever it answers, the tree is as before.
    pub fn count(&mut self) -> Result<usize, NoMemory>
        ensures setting { setting self.new ≡ setting self.old }
        ensures state { state self.new ≡ state self.old }
        ensures count { IfOk result (λ count. count ≡ length (points (setting self.old) 0 (state self.old).control)) }
    {
        self.list()?;
        self.counted()
    }

    /// Lists the branches at the end of the spine, where none are listed.
    fn list(&mut self) -> Result<(), NoMemory>
        ensures setting { setting self.new ≡ setting self.old }
        ensures state { state self.new ≡ state self.old }
    {
        if self.listing.is_some() {
            return Ok(());
        }
        self.listing = listed(self.alloc, &self.setting, &self.node)?;
        Ok(())
    }

    fn counted(&self) -> Result<usize, NoMemory>
        ensures { IfOk result (λ count. count ≡ length (points (setting self.now) 0 (state self.now).control)) }
    {
        match self.listed_count()? {
            Some(count) => Ok(count),
            None => Ok(self.points()?.len()),
        }
    }

    /// How many of the points that are listed may act; none where none may.
    fn listed_count(&self) -> Result<Option<usize>, NoMemory>
        ensures { IfOk result (λ found. IfSome found (λ count. count ≡ length (points (setting self.now) 0 (state self.now).control))) }
    {
        listings_tell_points();
        match &self.listing {
            None => Ok(None),
            Some(listing) => {
                let count = listing.count()?;
                if count > 0 { Ok(Some(count)) } else { Ok(None) }
            }
        }
    }

    /// The point with number n of those that are listed and may act.
    fn listed_point(&self, n: usize) -> Option<&Point<'a>>
        ensures { IfSome result (λ point. slice_get (map (spot_below (setting self.now) []) (points (setting self.now) 0 (state self.now).control)) n
            ≡ Some (spot_of point.now)) }
    {
        listings_tell_points();
        match &self.listing {
            None => None,
            Some(listing) => listing.choose(n),
        }
    }

    /// The point with number n, without what it reads.
    fn chosen(&self, n: usize) -> Result<Point<'a>, NoMemory>
        requires { n < length (points (setting self.now) 0 (state self.now).control) }
        ensures { IfOk result (λ point. option_map unread (slice_get (map (spot_below (setting self.now) [])
            (points (setting self.now) 0 (state self.now).control)) n) ≡ Some (spot_of point)) }
    {
        match self.listed_point(n) {
            Some(point) => chosen(self.alloc, point),
            None => {
                let found = self.points()?;
                chosen(self.alloc, &found[n])
            }
        }
    }

    /// Does the action with number n of those that may be done next, and tells it. After `Trap` and after want of memory the tree
    /// is as before.
    pub fn step(&mut self, n: u32) -> Result<Step, NoMemory>
        requires { n < length (points (setting self.old) 0 (state self.old).control) }
        ensures setting { setting self.new ≡ setting self.old }
        ensures step { Acted (stepped (setting self.old) (state self.old) n) (state self.old) (state self.new) (how_of result) }
        ensures action { IfOk result
            (λ step. option_map action_of (slice_get (points (setting self.old) 0 (state self.old).control) n) ≡ Some step.action) }
    {
        let point = self.chosen(n as usize)?;
        let did = self.perform(&point)?;
        Ok(Step {
            action: action_at(&point),
            did,
        })
    }

    /// Does the action with number n of those that may be done next. After `Trap` and after want of memory the tree is as before.
    pub fn act(&mut self, n: u32) -> Result<Did, NoMemory>
        requires { n < length (points (setting self.old) 0 (state self.old).control) }
        ensures setting { setting self.new ≡ setting self.old }
        ensures step { Acted (stepped (setting self.old) (state self.old) n) (state self.old) (state self.new) result }
    {
        let point = self.chosen(n as usize)?;
        self.perform(&point)
    }

    /// Does what a point does.
    fn perform(&mut self, point: &Point<'a>) -> Result<Did, NoMemory>
        ensures setting { setting self.new ≡ setting self.old }
        ensures step { Acted (acted_at (setting self.old) (state self.old) (spot_of point.now).instance (spot_of point.now).effect (spot_of point.now).path)
            (state self.old) (state self.new) result }
    {
        match point.effect {
            Effect::Asks(e) => self.ask(point.instance, &point.path, e),
            Effect::Does(deed) => self.carry(point.instance, &point.path, deed),
        }
    }

    fn ask(&mut self, i: u32, path: &[usize], e: &Expr) -> Result<Did, NoMemory>
        ensures setting { setting self.new ≡ setting self.old }
        ensures step { Acted (acted_at (setting self.old) (state self.old) i (Asks e.now) path.now) (state self.old) (state self.new) result }
    {
        match asks(
            self.alloc,
            &self.setting,
            self.frames.as_slice(),
            &mut self.views,
            i,
            e,
        )? {
            None => Ok(Did::Trap),
            Some(answer) => {
                let next = self.next(path, answer)?;
                self.go(next);
                Ok(Did::Done)
            }
        }
    }

    fn carry(&mut self, i: u32, path: &[usize], deed: Deed<'a>) -> Result<Did, NoMemory>
        ensures setting { setting self.new ≡ setting self.old }
        ensures step { Acted (acted_at (setting self.old) (state self.old) i (effect_of deed.entry) path.now) (state self.old) (state self.new) result }
    {
        let next = self.next(path, true)?;
        match carry_out(
            self.alloc,
            &self.setting,
            &mut self.frames,
            &mut self.views,
            i,
            deed,
        )? {
            Did::Trap => Ok(Did::Trap),
            Did::Done => {
                self.go(next);
                Ok(Did::Done)
            }
        }
    }

    /// What an answer of the point to which these branches lead makes of one of those that are listed.
    fn change(&self, path: &[usize], answer: bool) -> Result<Option<Next<'a>>, NoMemory>
        ensures fits { IfOk result (λ found. IfSome found (FitsListed (setting self.now) (state self.now).control (listed_by self.now.listing))) }
        ensures leads { IfOk result (λ found. IfSome found (λ next. led (state self.now).control next
            ≡ after_by (setting self.now) 0 (state self.now).control path.now answer)) }
    {
        match &self.listing {
            None => Ok(None),
            Some(listing) => change(self.alloc, &self.setting, &self.node, listing, path, answer),
        }
    }

    /// To what an answer of the point to which these branches lead leads.
    fn next(&self, path: &[usize], answer: bool) -> Result<Next<'a>, NoMemory>
        ensures fits { IfOk result (FitsListed (setting self.now) (state self.now).control (listed_by self.now.listing)) }
        ensures leads { IfOk result (λ next. led (state self.now).control next ≡ after_by (setting self.now) 0 (state self.now).control path.now answer) }
    {
        match self.change(path, answer)? {
            Some(next) => Ok(next),
            None => Ok(Next {
                tree: after(self.alloc, &self.setting, 0, &self.node, path, answer)?,
                kept: None,
            }),
        }
    }

    fn go(&mut self, next: Next<'a>)
        requires { FitsListed (setting self.old) (state self.old).control (listed_by self.old.listing) next }
        ensures setting { setting self.new ≡ setting self.old }
        ensures state { state self.new ≡ record { control = led (state self.old).control next.entry; store = (state self.old).store } }
    {
        let Next { tree, kept } = next;
        match kept {
            None => {
                self.node = tree;
                self.listing = None;
            }
            Some(kept) => self.put(tree, kept),
        }
    }

    fn put(&mut self, tree: Node<'a>, kept: Kept<'a>)
        requires { FitsAny (setting self.old) (state self.old).control (listed_by self.old.listing) (control_of tree) (Some kept) }
        ensures setting { setting self.new ≡ setting self.old }
        ensures state { state self.new
            ≡ record { control = with_fork (state self.old).control kept.entry.branch (control_of tree.entry); store = (state self.old).store } }
    {
        listings_tell_points();
        replaced_branches_are_listed();
        let Kept {
            branch,
            found,
            free,
        } = kept;
        spine::put(&mut self.node, branch, tree);
        match &mut self.listing {
            None => {}
            Some(listing) => match listing.replace(branch, found, free) {
                Ok(()) => {}
                Err(_) => self.listing = None,
            },
        }
    }

    /// Whether nothing is left to do in this tick.
    pub fn settled(&self) -> bool
        ensures { result ≡ is_settled (state self.now).control }
    {
        is_settled(&self.node)
    }

    /// Whether the run has ended.
    pub fn ended(&self) -> bool
        ensures { result ≡ is_nil (state self.now).control }
    {
        is_nil(&self.node)
    }

    /// The row of the entry's outputs, of which there are as many as the entry's activity has.
    pub fn outs(&self, into: &mut Row)
        requires { length into.old ≡ count_of_outputs (setting self.now) }
        ensures { into.new ≡ outputs_row (setting self.now) (state self.now).store }
    {
        ticks::outputs(&self.setting, self.frames.as_slice(), into)
    }
}
