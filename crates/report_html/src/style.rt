// The style sheet.

/// The style of a page in both themes, from 360 pixels to print. Beside each colour stands a word or a shape that says
/// the same.
pub const STYLE: &str =
    ":root{color-scheme:light dark;--bg:#fff;--fg:#1b1f24;--dim:#555c65;--line:#c6ccd3;--code:#f4f6f8;\n\
--mark:#ffeeb0;--link:#0a55c4;--ok:#1979af;--okf:#4094c6;--fix:#8f4c00;--bad:#560012;--off:#7d858f;\n\
--l0:#8b0000;--l1:#b3123a;--l2:#a8227a;--l3:#b03a00;--l4:#8a6100;--l5:#0a6a8f;--l7:#5f6670}\n\
@media screen and (prefers-color-scheme:dark){:root{--bg:#13161a;--fg:#e4e7eb;--dim:#a5adb7;--line:#3d454f;\n\
--code:#1b2026;--mark:#463a0a;--link:#8ab8ff;--ok:#3d93cc;--okf:#3282ba;--fix:#e2a63c;--bad:#ffe6e1;--off:#808a95;\n\
--l0:#ffb4a6;--l1:#ff9a9a;--l2:#f5a0dc;--l3:#ffac7a;--l4:#e0b450;--l5:#6cc8ec;--l7:#a9b1bb}}\n\
*{box-sizing:border-box}\n\
body{margin:0 auto;max-width:88rem;padding:1rem clamp(.75rem,3vw,2.5rem) 2rem;background:var(--bg);color:var(--fg);\n\
font:.9375rem/1.45 system-ui,sans-serif}\n\
pre,td,.mono{font-family:ui-monospace,\"DejaVu Sans Mono\",Menlo,Consolas,monospace;font-size:.8125rem}\n\
h1{margin:0;font-size:.9375rem;font-weight:600;overflow-wrap:anywhere}\n\
h2{margin:2rem 0 .5rem;padding-top:.5rem;border-top:2px solid var(--fg);font-size:1.125rem}\n\
p{margin:.5rem 0;max-width:75ch}\n\
a{color:var(--link)}\n\
nav{margin:.25rem 0 1rem}\n\
nav a{display:inline-block;margin-right:1rem;padding:.125rem 0}\n\
.note{color:var(--dim)}\n\
.why{margin:0 0 .75rem;padding:.5rem .75rem;border-left:.375rem solid var(--bad);background:var(--code);\n\
font-size:clamp(1rem,2.2vw,1.375rem);line-height:1.3;font-weight:700;white-space:pre-wrap;overflow-wrap:anywhere}\n\
.warn{max-width:none;padding:.375rem .75rem;border:2px dashed var(--fix)}\n\
table{border-collapse:collapse}\n\
caption{padding:.25rem 0;text-align:left;color:var(--dim)}\n\
th,td{padding:.1875rem .625rem .1875rem 0;text-align:left;vertical-align:top;font-weight:400}\n\
th{color:var(--dim);white-space:nowrap}\n\
.fact td{white-space:pre-line;overflow-wrap:anywhere}\n\
.fact span{margin-right:.375rem}\n\
.grid th,.grid td{border-top:1px solid var(--line)}\n\
.grid td{white-space:pre}\n\
.grid .n{text-align:right}\n\
.grid .wrap{min-width:12rem;white-space:pre-wrap;overflow-wrap:anywhere}\n\
.grid .pic{padding:0 0 .5rem;border:0}\n\
.scroll{overflow-x:auto}\n\
details>.scroll{margin-bottom:1rem}\n\
.ok,.fix,.bad,.off{font-weight:600;padding:0 .375rem;border:1px solid;border-radius:.25rem;white-space:nowrap}\n\
.ok{color:var(--ok);fill:var(--okf)}\n\
.fix{color:var(--fix);fill:var(--fix);border-style:dashed}\n\
.bad{color:var(--bg);background:var(--bad);border-color:var(--bad);fill:var(--bad)}\n\
.off{color:var(--dim);fill:var(--off);border-style:dotted}\n\
.par{fill:none;stroke:var(--off)}\n\
.map,.strip{display:block;width:100%}\n\
.map{height:52px}\n\
.zone{fill:var(--code);stroke:var(--off);stroke-width:.5}\n\
text{fill:var(--fg);font:.75rem system-ui,sans-serif}\n\
.strip{height:1.5rem}\n\
.strip rect,.key rect{vector-effect:non-scaling-stroke}\n\
.strip .fix,.strip .bad{stroke:var(--fix);stroke-width:1px}\n\
.strip .bad{stroke:var(--bad)}\n\
.legend{margin:.5rem 0;padding:0;list-style:none;display:flex;flex-wrap:wrap;gap:.125rem 1rem}\n\
.key{display:inline-block;width:1rem;height:1.25rem;margin-right:.25rem;vertical-align:-.3rem}\n\
summary{padding:.25rem 0;cursor:pointer}\n\
summary span,summary mark{display:inline-block;margin-left:.75rem}\n\
summary mark{padding:0 .375rem;background:var(--mark);color:inherit;font-weight:700}\n\
summary .say{display:inline-block;width:calc(100% - 1.5rem);margin:.5rem 0 0;vertical-align:top;\n\
font:700 .8125rem ui-monospace,\"DejaVu Sans Mono\",Menlo,Consolas,monospace;\n\
white-space:pre-wrap;overflow-wrap:anywhere}\n\
summary .say span{display:inline;margin:0;font-weight:400;color:var(--dim)}\n\
.group{border-top:1px solid var(--line)}\n\
.group>summary{padding:.5rem 0}\n\
.group>details{margin-left:1rem}\n\
.log{margin:.25rem 0;padding:.375rem .5rem .375rem .8125rem;background:var(--code);line-height:1.4;\n\
white-space:pre-wrap;overflow-wrap:anywhere;tab-size:8}\n\
.log i,.log mark{display:block;margin:0 -.5rem 0 -.8125rem}\n\
.log i{padding-left:calc(.5rem + 4ch);text-indent:-4ch;font-style:normal;border-left:.3125rem solid transparent}\n\
.log mark{padding-left:.8125rem;background:var(--mark);color:inherit;font-weight:700}\n\
.log u{text-decoration:underline wavy var(--fix);text-underline-offset:.2em}\n\
.log .l0{border-left-color:var(--l0);color:var(--l0);font-weight:700}\n\
.log .l1{border-left-color:var(--l1);color:var(--l1);font-weight:700}\n\
.log .l2{border-left-color:var(--l2);color:var(--l2)}\n\
.log .l3{border-left-color:var(--l3);color:var(--l3)}\n\
.log .l4{border-left-color:var(--l4)}\n\
.log .l5{border-left-color:var(--l5)}\n\
.log .l7{border-left:.3125rem dotted var(--l7);color:var(--l7)}\n\
.legend.log i{margin:0;padding-left:.5rem;text-indent:0}\n\
footer{margin-top:2rem;border-top:1px solid var(--line);color:var(--dim)}\n\
:target{outline:2px solid var(--link);outline-offset:2px}\n\
@media(max-width:48rem){.stack tr{display:block;border-top:1px solid var(--line)}.stack th{display:none}\n\
.grid.stack td{display:inline;border:0;white-space:pre-wrap}.stack td:nth-child(3)::before{content:\"\\A\"}\n\
.grid .wrap{min-width:0}}\n\
@media(max-width:34rem){.slim{display:none}text{font-size:.625rem}.grid th{font-size:.625rem}\n\
.fact tr,.fact th,.fact td{display:block}.fact th{padding:.375rem 0 0}.fact td{padding-top:0}\n\
.grid th,.grid td{padding-right:.25rem}.grid td{font-size:.6875rem}summary .say{font-size:.75rem}\n\
.log{font-size:.6875rem}summary span{margin-left:.375rem}.group>details{margin-left:0}}\n\
@media print{@page{size:A4;margin:14mm}*{print-color-adjust:exact;-webkit-print-color-adjust:exact}\n\
:root{color-scheme:light}body{max-width:none;padding:0;font-size:9pt}pre,td{font-size:7.5pt}.why{font-size:13pt}\n\
nav{display:none}summary{list-style:none;break-after:avoid}h2{break-after:avoid}\n\
tr,.log i,.log mark{break-inside:avoid}\n\
.scroll{overflow:visible}.grid td{white-space:pre-wrap}}\n";
