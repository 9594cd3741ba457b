//! The style sheet of a picture.
use cam_base::NoMemory;
use std::alloc::Global;

/// How the parts of a picture look. Shapes, dashes and words tell them apart; colours, which the
/// colour-blind can tell too, only help.
const STYLE: &str = "
svg{color:#1b1f24;font:12px 'DejaVu Sans',Verdana,sans-serif}
text{fill:currentColor;white-space:pre}
.paper{fill:#fff}.band{fill:#f1f4f8}.rows{fill:url(#rows)}.tip{fill:#1b1f24}
marker{overflow:visible}
.head{font-weight:bold;text-anchor:middle}.kept{text-anchor:middle;fill:#57606a}
.column{fill:#57606a}.posts{fill:url(#posts);pointer-events:none}
.lane{stroke:#57606a;stroke-width:2}
.gap{stroke:#fff;stroke-width:4}
.halted{stroke:#57606a;stroke-width:2;stroke-dasharray:1 6;stroke-linecap:round}
.pause{fill:#fff;stroke:#b33d00;stroke-width:2}
.work,.reply{color:#0072b2}.end{color:#00714f}
.vote{color:#8b3a8f}.news{color:#57606a}.unheard{color:#b33d00}
.shaft{fill:none;stroke:currentColor;stroke-width:1.8;marker-end:url(#tip)}
.unheard .shaft{marker-end:none}
.reply .shaft{stroke-dasharray:8 3}.vote .shaft{stroke-dasharray:3 3}
.news .shaft{stroke-dasharray:1 4;stroke-linecap:round}
.fate{fill:#fff;stroke:currentColor;stroke-width:2}
.word{font-size:10px;text-anchor:middle;stroke:#fff;stroke-width:3px;
stroke-linejoin:round;paint-order:stroke}
.before{text-anchor:end}.behind{text-anchor:start}.post{font-weight:bold}
.sign{fill:#fff;stroke:#1b1f24;stroke-width:1.8}
.number{font-size:9px;text-anchor:middle}.small{font-size:7px}
.idle .sign{stroke:#57606a;stroke-dasharray:2 2}.idle .words{fill:#57606a}
.asking .sign{stroke-width:3.8}
.commit .sign,.restart .sign{fill:#1b1f24}
.commit .number,.restart .number,.stop .number{fill:#fff}
.stop .sign{fill:#b33d00;stroke-width:2.2}.stop .words{fill:#b33d00;font-weight:bold}
.beside{font-size:10px;font-weight:bold;stroke:#fff;stroke-width:4px;paint-order:stroke}
.line{font-size:10px;text-anchor:end;fill:#57606a}
.dim{opacity:.35}
.event.dim{opacity:1}.event.dim text{opacity:.45}.event.dim .sign{stroke-opacity:.35}
.commit.dim .sign,.stop.dim .sign,.restart.dim .sign{fill-opacity:.35}
.event:target .sign{stroke-width:5}
@media print{svg{color:#000}
.work,.reply,.end,.vote,.news,.unheard{color:#000}.stop .sign{fill:#000}}
";

/// The style sheet.
pub(crate) fn style_sheet(alloc: Global) -> Result<String, NoMemory> {
    let mut style = String::new(alloc);
    style.push_str(STYLE)?;
    Ok(style)
}
