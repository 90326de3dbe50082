//! What is the same in all pictures: the fills of tasks and the shapes of marks.

use crate::boxes::FILLS;
use std::alloc::AllocError;

/// Seven colours that the colour-blind tell apart, those of Okabe and Ito.
const COLOURS: [&str; 7] = [
    "#e69f00", "#56b4e9", "#009e73", "#f0e442", "#0072b2", "#d55e00", "#cc79a7",
];

/// The lines over a colour: none, rising, level and falling ones. Neighbours among the fills have different ones, which are told apart in
/// grey too. No two fills are the same, since 7 and 4 have no common factor.
const LINES: [&str; 4] = ["", "M0 8L8 0", "M0 2H8M0 6H8", "M0 0L8 8"];

const RULES: &str = "<style>
.w{fill:#fff}
text{font-size:12px;fill:#000}
.h{font-size:15px}
.n{text-anchor:middle;font-weight:bold;stroke:#fff;stroke-width:3px;paint-order:stroke;pointer-events:none}
.a{font-size:11px;text-anchor:middle}
.r{text-anchor:end}
.y{font-size:9px;text-anchor:end}
.l{fill:#eee}
.b{stroke:#000;stroke-width:.5}
.m{fill:#888;stroke:none}
.o{fill:#ccc}
.e{fill:#dff0e6}
.u{fill:url(#asleep)}
.v{fill:url(#waiting)}
.g{stroke:#ccc;stroke-width:1}
.z{stroke:#999;stroke-width:1}
.k{fill:none;stroke:#000;stroke-width:1.3}
.p{fill:none;stroke:#7b1fa2;stroke-width:1.5;marker-end:url(#tip)}
.q{fill:none;stroke:#8a4b08;stroke-width:1.5;stroke-dasharray:5 2;marker-end:url(#point)}
";

/// The shapes have colours that no task has. The head of an arrow is shorter than what is between two rows of marks.
const SHAPES: &str =
    "<pattern id=\"asleep\" width=\"6\" height=\"6\" patternUnits=\"userSpaceOnUse\"><rect width=\"6\" height=\"6\" fill=\"#fff\"/>\
<path d=\"M0 6L6 0\" stroke=\"#999\" stroke-width=\"1\"/></pattern>
<pattern id=\"waiting\" width=\"4\" height=\"4\" patternUnits=\"userSpaceOnUse\"><rect width=\"4\" height=\"4\" fill=\"#fff\"/>\
<path d=\"M1 0V4\" stroke=\"#b00\" stroke-width=\"1.5\"/></pattern>
<marker id=\"tip\" viewBox=\"0 0 6 6\" refX=\"4.5\" refY=\"3\" markerWidth=\"6\" markerHeight=\"6\" markerUnits=\"userSpaceOnUse\" \
orient=\"auto\"><path d=\"M0 0L6 3L0 6Z\" fill=\"#7b1fa2\"/></marker>
<marker id=\"point\" viewBox=\"0 0 6 6\" refX=\"4.5\" refY=\"3\" markerWidth=\"6\" markerHeight=\"6\" markerUnits=\"userSpaceOnUse\" \
orient=\"auto\"><path d=\"M0 0L6 3L0 6Z\" fill=\"#8a4b08\"/></marker>
<path id=\"pick\" d=\"M-3.5 -4L4 0L-3.5 4Z\"/>
<path id=\"same\" d=\"M-3 -3.5L3.5 0L-3 3.5Z\" fill=\"#fff\" stroke=\"#000\"/>
<path id=\"wake\" d=\"M-4 3.5L4 3.5L0 -4Z\" fill=\"#8a4b08\"/>
<path id=\"sleep\" d=\"M-4 -3.5L4 -3.5L0 4Z\" fill=\"#4d5a66\"/>
<path id=\"pull\" d=\"M0 -4.5L4.5 0L0 4.5L-4.5 0Z\" fill=\"#7b1fa2\"/>
<path id=\"renice\" d=\"M-3.5 -3.5H3.5V3.5H-3.5Z\" fill=\"#6b7000\" stroke=\"#000\" stroke-width=\".5\"/>
<path id=\"begin\" d=\"M-1.5 -4H1.5V-1.5H4V1.5H1.5V4H-1.5V1.5H-4V-1.5H-1.5Z\" fill=\"#8a4b08\"/>
<path id=\"end\" d=\"M-4 -1.5H4V1.5H-4Z\" fill=\"#4d5a66\"/>
<path id=\"set\" d=\"M-3.5 -3.5H3.5V3.5H-3.5ZM-1.5 -1.5V1.5H1.5V-1.5Z\" fill=\"#6b7000\" stroke=\"#000\" stroke-width=\".5\"/>
<path id=\"rebase\" d=\"M-4 3.5H4M0 -4V2M-3 -1L0 2L3 -1\" fill=\"none\" stroke=\"#000\" stroke-width=\"1.6\"/>
<path id=\"yield\" d=\"M-2.5 -4V4M2.5 -4V4\" fill=\"none\" stroke=\"#000\" stroke-width=\"2\"/>
<path id=\"refused\" d=\"M-3.5 -3.5L3.5 3.5M-3.5 3.5L3.5 -3.5\" fill=\"none\" stroke=\"#b00\" stroke-width=\"1.6\"/>
<path id=\"nothing\" d=\"M-3 0A3 3 0 0 0 3 0A3 3 0 0 0 -3 0Z\" fill=\"#fff\" stroke=\"#555\" stroke-width=\"1.2\"/>
</defs>
";

/// Writes the rules of the classes, the patterns and the shapes.
pub(crate) fn push_style(text: &mut String) -> Result<(), AllocError> {
    text.push_str(RULES)?;
    for fill in 0..FILLS {
        push_rule(text, fill)?;
    }
    text.push_str("</style>\n<defs>\n")?;
    for fill in 0..FILLS {
        if !is_plain(fill) {
            push_pattern(text, fill)?;
        }
    }
    text.push_str(SHAPES)
}

fn colour_of(fill: u64) -> &'static str {
    COLOURS[fill as usize % COLOURS.len()]
}

fn lines_of(fill: u64) -> &'static str {
    LINES[fill as usize % LINES.len()]
}

/// Whether a fill is the colour itself, and not a pattern over it.
fn is_plain(fill: u64) -> bool {
    fill as usize % LINES.len() == 0
}

fn push_rule(text: &mut String, fill: u64) -> Result<(), AllocError> {
    if is_plain(fill) {
        let colour = colour_of(fill);
        writeln!(text, ".t{fill}{{fill:{colour}}}")
    } else {
        writeln!(text, ".t{fill}{{fill:url(#f{fill})}}")
    }
}

fn push_pattern(text: &mut String, fill: u64) -> Result<(), AllocError> {
    let (colour, lines) = (colour_of(fill), lines_of(fill));
    write!(
        text,
        "<pattern id=\"f{fill}\" width=\"8\" height=\"8\" patternUnits=\"userSpaceOnUse\">"
    )?;
    write!(text, "<rect width=\"8\" height=\"8\" fill=\"{colour}\"/>")?;
    writeln!(
        text,
        "<path d=\"{lines}\" stroke=\"#000\" stroke-width=\"1.2\"/></pattern>"
    )
}
