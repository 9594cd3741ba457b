//! A node whose disk stops.

/// The disk of node 1 stops, so the node halts when P gives up A.
pub(crate) const SCRIPT: &str = "nodes 1
begin P 1
ask P A 1
deliver 1
stop 1 0
giveup P A
restart 1
";

/// Its picture: after event 2 node 1 halts, and it comes back with the count 2.
pub(crate) const PICTURE: &str =
    "<marker id=\"tip\" refX=\"11\" refY=\"2\" orient=\"auto-start-reverse\"><path class=\"tip\" d=\"M0 0L5 2L0 4z\"/></marker>
<pattern id=\"rows\" patternUnits=\"userSpaceOnUse\" y=\"62\" width=\"420\" height=\"56\"><rect class=\"band\" y=\"0\" width=\"420\" height=\"28\"/></pattern>
<rect class=\"paper\" y=\"0\" width=\"420\" height=\"188\"/><rect class=\"rows\" y=\"62\" width=\"420\" height=\"188\"/>
<text class=\"line\" x=\"40\" y=\"40\">line</text><text class=\"column\" x=\"232\" y=\"40\">what happened</text>
<text class=\"head\" x=\"160\" y=\"24\">node 1</text><text class=\"kept\" x=\"160\" y=\"40\"></text><path class=\"lane\" d=\"M160 48V188\"/>
<path class=\"gap\" d=\"M160 146V146\"/><path class=\"halted\" d=\"M160 146V146\"/>
<g class=\"letter work\" data-letter=\"1\" data-from=\"1\" data-to=\"2\"><path class=\"shaft\" d=\"M160 104C120 110 120 126 160 132\"/></g>
<g class=\"event plain\" id=\"e0\" data-event=\"0\"><title>event 0 at node 1, line 2

create P</title><text class=\"words\" x=\"232\" y=\"80\" data-action=\"P\">create P</text><text class=\"line\" x=\"40\" y=\"80\">2</text><path class=\"sign\" transform=\"translate(160 76)\" d=\"M-10 0a10 10 0 1 0 20 0a10 10 0 1 0 -20 0z\"/><text class=\"number\" x=\"160\" y=\"80\">0</text></g>
<g class=\"event plain\" id=\"e1\" data-event=\"1\"><title>event 1 at node 1, line 3

P asks for A</title><text class=\"words\" x=\"232\" y=\"108\" data-action=\"P\">P asks for A</text><text class=\"line\" x=\"40\" y=\"108\">3</text><path class=\"sign\" transform=\"translate(160 104)\" d=\"M-10 0a10 10 0 1 0 20 0a10 10 0 1 0 -20 0z\"/><text class=\"number\" x=\"160\" y=\"108\">1</text></g>
<g class=\"event plain\" id=\"e2\" data-event=\"2\"><title>event 2 at node 1, line 4, by letter 1, start from node 1

create A</title><text class=\"words\" x=\"232\" y=\"136\" data-action=\"A\">create A</text><text class=\"line\" x=\"40\" y=\"136\">4</text><path class=\"sign\" transform=\"translate(160 132)\" d=\"M-10 0a10 10 0 1 0 20 0a10 10 0 1 0 -20 0z\"/><text class=\"number\" x=\"160\" y=\"136\">2</text></g>
<g class=\"event restart\" id=\"e3\" data-event=\"3\"><title>event 3 at node 1, line 7

restart of node 1</title><text class=\"words\" x=\"232\" y=\"164\" data-action=\"\">restart of node 1</text><text class=\"beside\" x=\"178\" y=\"164\">count 2</text><text class=\"line\" x=\"40\" y=\"164\">7</text><path class=\"sign\" transform=\"translate(160 160)\" d=\"M-13 -6h26v14h-26zM-11 -9l22 -4M-11 -13l22 -4\"/><text class=\"number\" x=\"160\" y=\"164\">3</text></g>
<g class=\"label work\" data-letter=\"1\"><text class=\"word before\" x=\"126\" y=\"137\">start 1</text></g>
<path class=\"pause\" transform=\"translate(178 146)\" d=\"M-7 -7h14v14h-14zM-2 -4v8M2 -4v8\"/><text class=\"beside\" x=\"190\" y=\"150\">halts in line 6: not logged</text>
<pattern id=\"posts\" patternUnits=\"userSpaceOnUse\" y=\"482\" width=\"420\" height=\"840\"><text class=\"word post\" x=\"160\" y=\"424\">node 1</text></pattern><rect class=\"posts\" y=\"482\" width=\"420\" height=\"188\"/>
</svg>
";
