// The page's own words, which its definition cites.

/// The head, before the name of the page: no script, and nothing from elsewhere.
pub const HEAD: &str = "<!doctype html>\n<html lang=\"en\">\n<head>\n<meta charset=\"utf-8\">\n\
<meta name=\"viewport\" content=\"width=device-width, initial-scale=1\">\n\
<meta http-equiv=\"Content-Security-Policy\" content=\"default-src 'none'; style-src 'unsafe-inline'\">\n\
<title>";

/// After the title.
pub const NAVIGATION: &str =
    "</h1>\n<nav aria-label=\"Parts of this page\"><a href=\"#records\">Records</a> \
<a href=\"#region\">Region</a> <a href=\"#layout\">Parameters</a></nav>\n";

/// After the number of records: the key of the levels.
pub const LEVELS: &str = "</h2>\n<ul class=\"legend log\">\n\
<li><i class=\"l0\">&lt;0&gt; emergency</i></li>\n<li><i class=\"l1\">&lt;1&gt; alert</i></li>\n\
<li><i class=\"l2\">&lt;2&gt; critical</i></li>\n<li><i class=\"l3\">&lt;3&gt; error</i></li>\n\
<li><i class=\"l4\">&lt;4&gt; warning</i></li>\n<li><i class=\"l5\">&lt;5&gt; notice</i></li>\n\
<li>&lt;6&gt; info</li>\n<li><i class=\"l7\">&lt;7&gt; debug</i></li>\n</ul>\n\
<p class=\"note\">The number before a line is its level. A line with a number of 8 or more comes from user space, and \
has no bar. The console keeps no levels. A line with a wavy underline has bytes in a bad block: they can be wrong.\
</p>\n";

pub const END: &str =
    "</main>\n<footer>\n<p>Times are UTC. Text of the region is printable ASCII, tabs and newlines; \
every other byte, and the backslash, is shown as <span class=\"mono\">\\x</span> and two hexadecimal digits.</p>\n\
</footer>\n</body>\n</html>\n";

pub const NO_CPU: &str = "<tr><th scope=\"row\">CPU</th><td>not recorded</td></tr>\n";

pub const NO_FUNCTION: &str = "<tr><th scope=\"row\">Function</th><td>not recorded</td></tr>\n";

/// Between the record that tells and how it read.
pub const READ: &str = "</td></tr>\n<tr><th scope=\"row\">Read</th><td>";

/// Between the table of what is known and the lines that tell it.
pub const TOLD: &str =
    "</td></tr>\n</table>\n</header>\n<main>\n<h2 id=\"told\">The lines that tell it, in ";

/// The head of the table of dumps.
pub const CAUSES: &str =
    "<div class=\"scroll\" tabindex=\"0\" role=\"region\" aria-label=\"Dumps by telling line\">\
<table class=\"grid stack\">\n<caption>Dumps by telling line</caption>\n\
<tr><th scope=\"col\" class=\"n\">Dumps</th><th scope=\"col\">Telling line</th>\
<th scope=\"col\">Newest of them</th><th scope=\"col\">Its time</th></tr>\n";

/// The head of the table of parameters.
pub const PARAMETERS: &str = "<h2 id=\"layout\">Parameters</h2>\n\
<p class=\"note\">As the zones were read. Sizes and parity are in bytes.</p>\n\
<div class=\"scroll\" tabindex=\"0\" role=\"region\" aria-label=\"Parameters\"><table class=\"grid\">\n\
<tr><th scope=\"col\">Parameter</th><th scope=\"col\" class=\"n\">Value</th></tr>\n";

/// The head of the map.
pub const MAP: &str = " zones</h2>\n<svg class=\"map\" role=\"img\" \
aria-label=\"The region to scale; the table below has its numbers\">\n";

/// The key of the map.
pub const KEY: &str = "</svg>\n<ul class=\"legend\">\n\
<li><svg class=\"key\" viewBox=\"0 0 16 24\" preserveAspectRatio=\"none\"><rect class=\"ok\" y=\"12\" width=\"16\" height=\"12\"/></svg>clean</li>\n\
<li><svg class=\"key\" viewBox=\"0 0 16 24\" preserveAspectRatio=\"none\"><rect class=\"fix\" y=\"9\" width=\"8\" height=\"15\"/>\
<rect class=\"fix\" x=\"8\" y=\"2\" width=\"8\" height=\"22\"/></svg>corrected, higher for more bytes</li>\n\
<li><svg class=\"key\" viewBox=\"0 0 16 24\" preserveAspectRatio=\"none\"><rect class=\"bad\" width=\"16\" height=\"24\"/></svg>\
bad: more damage than parity repairs</li>\n\
<li><svg class=\"key\" viewBox=\"0 0 16 24\" preserveAspectRatio=\"none\"><rect class=\"off\" y=\"20\" width=\"16\" height=\"4\"/></svg>not in use</li>\n\
<li><svg class=\"key\" viewBox=\"0 0 16 24\" preserveAspectRatio=\"none\"><rect class=\"par\" y=\"12\" width=\"16\" height=\"12\"/></svg>parity</li>\n\
</ul>\n<p class=\"note\">To scale. Each zone has its header, its blocks and its parity.</p>\n";

/// The head of the table of zones.
pub const ZONES: &str = "<div class=\"scroll\" tabindex=\"0\" role=\"region\" aria-label=\"Zones\">\
<table class=\"grid\">\n\
<tr><th scope=\"col\">Zone</th><th scope=\"col\">State</th><th scope=\"col\" class=\"n\">Place</th>\
<th scope=\"col\" class=\"n\">Size</th><th scope=\"col\" class=\"n\">Start</th>\
<th scope=\"col\" class=\"n\">Used</th><th scope=\"col\" class=\"n\">Corrected</th>\
<th scope=\"col\" class=\"n\">Bad</th></tr>\n";

/// Between two cells of a row, of which the second is a number.
pub const CELL: &str = "</td><td class=\"n\">";

/// Between the row of a zone and its strip.
pub const STRIP: &str =
    "</td></tr>\n<tr><td class=\"pic\" colspan=\"8\"><svg class=\"strip\" viewBox=\"";

/// The frame of a zone, and where its strip begins.
pub const FRAME: &str = "</title><rect class=\"zone\" width=\"100%\" height=\"52\"/>\
<svg class=\"strip\" y=\"28\" height=\"24\" viewBox=\"";

/// The head of the table of headers and blocks that are not clean.
pub const SPOTS: &str = "</b></summary>\n<div class=\"scroll\" tabindex=\"0\" role=\"region\" \
aria-label=\"Headers and blocks that are not clean\"><table class=\"grid\">\n\
<tr><th scope=\"col\">Zone</th><th scope=\"col\" class=\"n\">Block</th>\
<th scope=\"col\" class=\"n\">Place</th><th scope=\"col\" class=\"n\">Bytes</th>\
<th scope=\"col\">Read</th></tr>\n";

pub const CLEAN: &str = "<p class=\"note\">All headers and blocks in use are clean.</p>\n";

/// Before what is warned of.
pub const OPENING: &str = "<p class=\"warn\"><b>Read with care.</b> ";

pub const CLOSING: &str = "</p>\n";

pub const BAD_TELLER: &str = "The record that tells it has bad parts: its lines can be wrong.";

pub const NO_LOG: &str =
    "No zone has a log. The region is blank, or its place or the parameters are not the kernel's.";

pub const MANY_BAD: &str = "More than half of the zones have bad parts. \
The place or the parameters can be other than the kernel's.";
