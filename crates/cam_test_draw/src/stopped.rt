//! An orphan that is stopped before it begins.
/// P gives C up before the letter arrives that starts C.
pub(crate) const SCRIPT: &str = "nodes 2
begin P 1
ask P C 2
giveup P C
tell 1 2
deliver 2
deliver 1
";

/// Its picture, in which the way to the stop is lit: the abort, the news of it, the stop.
pub(crate) const PICTURE: &str =
    "<marker id=\"tip\" refX=\"11\" refY=\"2\" orient=\"auto-start-reverse\"><path class=\"tip\" d=\"M0 0L5 2L0 4z\"/></marker>
<pattern id=\"rows\" patternUnits=\"userSpaceOnUse\" y=\"62\" width=\"568\" height=\"56\"><rect class=\"band\" y=\"0\" width=\"568\" height=\"28\"/></pattern>
<rect class=\"paper\" y=\"0\" width=\"568\" height=\"244\"/><rect class=\"rows\" y=\"62\" width=\"568\" height=\"244\"/>
<text class=\"line\" x=\"40\" y=\"40\">line</text><text class=\"column\" x=\"352\" y=\"40\">what happened</text>
<text class=\"head\" x=\"160\" y=\"24\">node 1</text><text class=\"kept\" x=\"160\" y=\"40\"></text><path class=\"lane\" d=\"M160 48V244\"/>
<text class=\"head\" x=\"280\" y=\"24\">node 2</text><text class=\"kept\" x=\"280\" y=\"40\"></text><path class=\"lane\" d=\"M280 48V244\"/>
<g class=\"letter news\" data-letter=\"2\" data-from=\"3\" data-to=\"4\"><path class=\"shaft\" d=\"M160 160Q220 174 280 188\"/></g>
<g class=\"letter work dim\" data-letter=\"1\" data-from=\"1\" data-to=\"5\"><path class=\"shaft\" d=\"M160 104Q220 160 280 216\"/></g>
<g class=\"event plain dim\" id=\"e0\" data-event=\"0\"><title>event 0 at node 1, line 2

create P</title><text class=\"words\" x=\"352\" y=\"80\" data-action=\"P\">create P</text><text class=\"line\" x=\"40\" y=\"80\">2</text><path class=\"sign\" transform=\"translate(160 76)\" d=\"M-10 0a10 10 0 1 0 20 0a10 10 0 1 0 -20 0z\"/><text class=\"number\" x=\"160\" y=\"80\">0</text></g>
<g class=\"event plain dim\" id=\"e1\" data-event=\"1\"><title>event 1 at node 1, line 3

P asks for C</title><text class=\"words\" x=\"352\" y=\"108\" data-action=\"P\">P asks for C</text><text class=\"line\" x=\"40\" y=\"108\">3</text><path class=\"sign\" transform=\"translate(160 104)\" d=\"M-10 0a10 10 0 1 0 20 0a10 10 0 1 0 -20 0z\"/><text class=\"number\" x=\"160\" y=\"108\">1</text></g>
<g class=\"event abort\" id=\"e2\" data-event=\"2\"><title>event 2 at node 1, line 4

abort C
hears abort C</title><text class=\"words\" x=\"352\" y=\"136\" data-action=\"C\">abort C</text><text class=\"line\" x=\"40\" y=\"136\">4</text><path class=\"sign\" transform=\"translate(160 132)\" d=\"M0 -14L14 0L0 14L-14 0z\"/><text class=\"number\" x=\"160\" y=\"136\">2</text></g>
<g class=\"event plain\" id=\"e3\" data-event=\"3\"><title>event 3 at node 1, line 5
</title><text class=\"words\" x=\"352\" y=\"164\" data-action=\"\">sends news to node 2</text><text class=\"line\" x=\"40\" y=\"164\">5</text><path class=\"sign\" transform=\"translate(160 160)\" d=\"M-10 0a10 10 0 1 0 20 0a10 10 0 1 0 -20 0z\"/><text class=\"number\" x=\"160\" y=\"164\">3</text></g>
<g class=\"event plain\" id=\"e4\" data-event=\"4\"><title>event 4 at node 2, line 6, by letter 2, news from node 1

hears abort C</title><text class=\"words\" x=\"352\" y=\"192\" data-action=\"\">hears abort C</text><text class=\"line\" x=\"40\" y=\"192\">6</text><path class=\"sign\" transform=\"translate(280 188)\" d=\"M-10 0a10 10 0 1 0 20 0a10 10 0 1 0 -20 0z\"/><text class=\"number\" x=\"280\" y=\"192\">4</text></g>
<g class=\"event stop\" id=\"e5\" data-event=\"5\"><title>event 5 at node 2, line 7, by letter 1, start from node 1
STOP orphan C: C was aborted</title><text class=\"words\" x=\"352\" y=\"220\" data-action=\"C\">STOP orphan C: C was aborted</text><text class=\"line\" x=\"40\" y=\"220\">7</text><path class=\"sign\" transform=\"translate(280 216)\" d=\"M-5 -12H5L12 -5V5L5 12H-5L-12 5V-5z\"/><text class=\"number\" x=\"280\" y=\"220\">5</text></g>
<g class=\"label news\" data-letter=\"2\"><text class=\"word before\" x=\"250\" y=\"193\">news 2</text></g>
<g class=\"label work dim\" data-letter=\"1\"><text class=\"word before\" x=\"250\" y=\"221\">start 1</text></g>
<pattern id=\"posts\" patternUnits=\"userSpaceOnUse\" y=\"482\" width=\"568\" height=\"840\"><text class=\"word post\" x=\"160\" y=\"424\">node 1</text><text class=\"word post\" x=\"280\" y=\"424\">node 2</text></pattern><rect class=\"posts\" y=\"482\" width=\"568\" height=\"244\"/>
</svg>
";
