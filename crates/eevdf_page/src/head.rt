//! What each page begins with.

/// From the first line up to the title. Nothing from outside is loaded, which the policy has the browser see to.
pub(crate) const BEFORE_TITLE: &str = "<!DOCTYPE html>
<html lang=\"en\">
<head>
<meta charset=\"utf-8\">
<meta http-equiv=\"Content-Security-Policy\" content=\"default-src 'none'; script-src 'unsafe-inline'; style-src 'unsafe-inline'\">
<meta name=\"viewport\" content=\"width=device-width\">
<title>";

/// From the title up to the first heading. The picture's own rules are for a light page, so a dark one has others for it.
pub(crate) const AFTER_TITLE: &str = "</title>
<style>
:root{color-scheme:light dark;--ground:#fff;--words:#000;--lines:#bbb;--chosen:#ffe9a8}
body{margin:1em;font:14px sans-serif;background:var(--ground);color:var(--words)}
h1{font-size:1.3em}
h2{font-size:1.1em;margin-top:1.5em}
#picture{overflow-x:auto;outline-offset:2px}
#picture svg{display:block;max-width:none!important}
#picture [hidden]{display:none}
#picture .dim{opacity:.12}
#picture .behind{opacity:.3}
#picture rect:focus{outline:none;stroke:#c00;stroke-width:3}
#told{display:grid;grid-template-columns:max-content auto max-content auto;gap:.1em 1em;margin:0;padding:.5em;position:sticky;bottom:0;
background:var(--ground);border-top:1px solid var(--lines)}
#told dt{opacity:.7}
#told dd{margin:0}
.wide{overflow:auto;max-height:30em;border:1px solid var(--lines)}
table{border-collapse:collapse;font-variant-numeric:tabular-nums}
th{position:sticky;top:0;background:var(--ground)}
th,td{padding:.1em .8em;text-align:right;border-bottom:1px solid var(--lines)}
tr.told,tbody tr:hover{background:var(--chosen)}
#figures table{font-size:.85em;width:max-content;max-width:1230px;margin-bottom:1em}
#figures th,#figures td{padding:.1em .4em;overflow-wrap:anywhere}
kbd{border:1px solid var(--lines);border-radius:3px;padding:0 .3em}
@media (max-width:40em){
#told{grid-template-columns:max-content auto}
}
@media (prefers-color-scheme:dark){
:root{--ground:#161616;--words:#e6e6e6;--lines:#555;--chosen:#4a3f14}
#picture .w{fill:#161616}
#picture text{fill:#e6e6e6}
#picture .n{stroke:#161616}
#picture .l{fill:#2a2a2a}
#picture rect:focus{stroke:#ff6b6b}
#picture .b{stroke:#e6e6e6}
#picture .o{fill:#555}
#picture .e{fill:#1d3a2a}
#picture .g{stroke:#444}
#picture .k{stroke:#e6e6e6}
#asleep rect,#waiting rect{fill:#161616}
#waiting path,#refused{stroke:#ff6b6b}
#pick{fill:#e6e6e6}
#same,#nothing{fill:#161616;stroke:#e6e6e6}
#yield,#rebase{stroke:#e6e6e6}
#pull,#tip path{fill:#d9a6ff}
#wake,#begin,#point path{fill:#e0b48a}
#sleep,#end{fill:#aab8c4}
#renice,#set{fill:#c9cf6a}
#picture .p{stroke:#d9a6ff}
#picture .q{stroke:#e0b48a}
}
</style>
</head>
<body>
";

/// Between the heading and the picture: what can be done with it.
pub(crate) const KEYS: &str = "<form id=\"search\" role=\"search\"><label>Search a task \
<input type=\"search\" placeholder=\"3 or task 3\" autocomplete=\"off\"></label> <output id=\"found\"></output></form>
<p>On the picture the wheel zooms, and with <kbd>Shift</kbd> moves. Its keys are <kbd>+</kbd> and <kbd>-</kbd>, <kbd>0</kbd> for all of it,
<kbd>&larr;</kbd> and <kbd>&rarr;</kbd> to move, <kbd>&uarr;</kbd> and <kbd>&darr;</kbd> for the box before and the next one. What is under
the pointer or has the focus, a box or a line of the table, is told below the picture.</p>
";

/// Where the picture begins.
pub(crate) const PICTURE: &str =
    "<section id=\"picture\" tabindex=\"0\" aria-label=\"the picture\">\n";

/// Before the data.
pub(crate) const BEFORE_DATA: &str = "<script type=\"application/json\" id=\"data\">";

/// Between the data and the script.
pub(crate) const AFTER_DATA: &str = "</script>
<script>
";

/// The end.
pub(crate) const END: &str = "</script>
</body>
</html>
";
