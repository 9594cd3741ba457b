//! A lost answer, and the restart of a home.
/// A call arrives, its answer is lost, and the home of the caller restarts.
pub(crate) const SCRIPT: &str = "nodes 2
object x 2 register 0
begin T 1
call T x write 5
deliver 1
lose 2
restart 1
";

/// Its picture, in which is lit what T saw, behind the style sheet: only the begin of T and its call.
pub(crate) const PICTURE: &str =
    "<marker id=\"tip\" refX=\"11\" refY=\"2\" orient=\"auto-start-reverse\"><path class=\"tip\" d=\"M0 0L5 2L0 4z\"/></marker>
<pattern id=\"rows\" patternUnits=\"userSpaceOnUse\" y=\"62\" width=\"540\" height=\"56\"><rect class=\"band\" y=\"0\" width=\"540\" height=\"28\"/></pattern>
<rect class=\"paper\" y=\"0\" width=\"540\" height=\"188\"/><rect class=\"rows\" y=\"62\" width=\"540\" height=\"188\"/>
<text class=\"line\" x=\"40\" y=\"40\">line</text><text class=\"column\" x=\"352\" y=\"40\">what happened</text>
<text class=\"head\" x=\"160\" y=\"24\">node 1</text><text class=\"kept\" x=\"160\" y=\"40\"></text><path class=\"lane\" d=\"M160 48V188\"/>
<text class=\"head\" x=\"280\" y=\"24\">node 2</text><text class=\"kept\" x=\"280\" y=\"40\">x</text><path class=\"lane\" d=\"M280 48V188\"/>
<g class=\"letter work dim\" data-letter=\"1\" data-from=\"1\" data-to=\"2\"><path class=\"shaft\" d=\"M160 104Q220 118 280 132\"/></g>
<g class=\"letter unheard reply dim\" data-letter=\"2\" data-from=\"2\"><path class=\"shaft\" d=\"M280 132L254 144\"/><path class=\"fate\" transform=\"translate(254 144)\" d=\"M-4 -4l8 8M4 -4l-8 8\"/></g>
<g class=\"event plain\" id=\"e0\" data-event=\"0\"><title>event 0 at node 1, line 3

create T</title><text class=\"words\" x=\"352\" y=\"80\" data-action=\"T\">create T</text><text class=\"line\" x=\"40\" y=\"80\">3</text><path class=\"sign\" transform=\"translate(160 76)\" d=\"M-10 0a10 10 0 1 0 20 0a10 10 0 1 0 -20 0z\"/><text class=\"number\" x=\"160\" y=\"80\">0</text></g>
<g class=\"event plain\" id=\"e1\" data-event=\"1\"><title>event 1 at node 1, line 4

T calls x write 5</title><text class=\"words\" x=\"352\" y=\"108\" data-action=\"T\">T calls x write 5</text><text class=\"line\" x=\"40\" y=\"108\">4</text><path class=\"sign\" transform=\"translate(160 104)\" d=\"M-10 0a10 10 0 1 0 20 0a10 10 0 1 0 -20 0z\"/><text class=\"number\" x=\"160\" y=\"108\">1</text></g>
<g class=\"event plain dim\" id=\"e2\" data-event=\"2\"><title>event 2 at node 2, line 5, by letter 1, call from node 1

perform for T: ok</title><text class=\"words\" x=\"352\" y=\"136\" data-action=\"T\">perform for T: ok</text><text class=\"line\" x=\"40\" y=\"136\">5</text><path class=\"sign\" transform=\"translate(280 132)\" d=\"M-10 0a10 10 0 1 0 20 0a10 10 0 1 0 -20 0z\"/><text class=\"number\" x=\"280\" y=\"136\">2</text></g>
<g class=\"event restart dim\" id=\"e3\" data-event=\"3\"><title>event 3 at node 1, line 7

restart of node 1</title><text class=\"words\" x=\"352\" y=\"164\" data-action=\"\">restart of node 1</text><text class=\"beside\" x=\"178\" y=\"164\">count 2</text><text class=\"line\" x=\"40\" y=\"164\">7</text><path class=\"sign\" transform=\"translate(160 160)\" d=\"M-13 -6h26v14h-26zM-11 -9l22 -4M-11 -13l22 -4\"/><text class=\"number\" x=\"160\" y=\"164\">3</text></g>
<g class=\"label work dim\" data-letter=\"1\"><text class=\"word before\" x=\"250\" y=\"137\">call 1</text></g>
<g class=\"label unheard reply dim\" data-letter=\"2\"><text class=\"word before\" x=\"246\" y=\"148\">answer 2 lost</text></g>
<pattern id=\"posts\" patternUnits=\"userSpaceOnUse\" y=\"482\" width=\"540\" height=\"840\"><text class=\"word post\" x=\"160\" y=\"424\">node 1</text><text class=\"word post\" x=\"280\" y=\"424\">node 2</text></pattern><rect class=\"posts\" y=\"482\" width=\"540\" height=\"188\"/>
</svg>
";
