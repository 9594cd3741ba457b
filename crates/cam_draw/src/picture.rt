//! The picture of a run.
ghost use Rattle.std.specs.Prelude.{IfErr, IfOk, reverse, string_bytes};
ghost use Rattle.cam_xml.specs.WellFormed.{IsDocument};
ghost use Rattle.cam_draw.specs.Light.{IsRefusal};
ghost use Rattle.cam_draw.specs.Drawing.{IsDrawing, IsScene};

use crate::captions::{captions_of, widest};
use crate::halts::halts_of;
use crate::heads::heads_of;
use crate::light::{Highlight, Light, light_of};
use crate::stubs::stubs_of;
use crate::style::style_sheet;
use cam_base::NoMemory;
use cam_diagram::{Scene, draw};
use cam_event::{RunRecord, Trace};
use cam_scope::Scope;
use cam_script::Script;
use cam_why::WhyFault;
use std::alloc::Global;

/// The scene of a run: what its picture has beside events and letters.
#[tactic(auto, using(crate::proofs::Drawn::is_scene))]
fn scene_of(
    alloc: Global,
    script: &Script,
    run: &RunRecord,
    scope: &Scope,
    light: &Light,
) -> Result<Scene, NoMemory>
    ensures { IfOk result (IsScene script.now run.now scope.now light.now) }
{
    let style = style_sheet(alloc)?;
    let heads = heads_of(alloc, script)?;
    let stubs = stubs_of(alloc, &run.trace, &scope.letters, light)?;
    let halts = halts_of(alloc, &scope.events, &run.marks)?;
    let captions = captions_of(alloc, scope, &script.labels, &run.trace, light)?;
    let widest = widest(&captions);
    Ok(Scene {
        style,
        heads,
        captions,
        stubs,
        halts,
        widest,
    })
}

/// The picture of a run of a script, as SVG. It is the diagram of the run's trace: a dot for each
/// event, in order, in the lane of its node; an arrow to each event that received a letter, from
/// the event that sent it, and no other arrow; a stub for each letter that no event received. What
/// is lit is exactly what is asked for: all, the past of the last event at which an action saw
/// something, or the cause of a stop and a shortest chain of letters from there. The text is
/// well-formed, whatever names the script has. `NoSuchStop` comes only where a stop is to be lit
/// and the run has no such stop.
#[tactic(auto, using(crate::proofs::Drawn::is_drawing))]
pub fn draw_text(
    alloc: Global,
    script: &Script,
    run: &RunRecord,
    scope: &Scope,
    highlight: &Highlight,
) -> Result<String, WhyFault>
    ensures drawn { IfOk result (λ text.
        IsDrawing script.now run.now scope.now highlight.now (string_bytes text)) }
    ensures refused { IfErr result (IsRefusal (reverse run.now.trace) highlight.now) }
    ensures well_formed { IfOk result (λ text. IsDocument (string_bytes text)) }
{
    let light = light_of(alloc, &run.trace, highlight)?;
    let scene = scene_of(alloc, script, run, scope, &light)?;
    let text = draw(alloc, &scene, &run.trace)?;
    Ok(text)
}
