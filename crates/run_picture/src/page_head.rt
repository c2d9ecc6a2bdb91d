//! How a page begins, up to its columns. `page/renew` makes this file of `page/page.html`.

/// How a page begins, up to its columns.
pub const PAGE_HEAD: &str = "<!doctype html>
<html lang=\"en\">
<head>
<meta charset=\"utf-8\">
<meta name=\"viewport\" content=\"width=device-width, initial-scale=1\">
<meta http-equiv=\"Content-Security-Policy\" content=\"default-src 'none'; style-src 'unsafe-inline'; script-src 'unsafe-inline'\">
<title>A run of task scopes</title>
<style>
:root {
  color-scheme: light dark;
  --ground: #fff; --ink: #1b1f24; --soft: #5c6670; --line: #d5d9e0; --panel: #f6f7f9; --chosen: #fff3bf;
  --open: #8ec7f0; --shut: #dbe9f4; --cancelled: #eab9d2; --early: #d3e6d8;
  --wait: #0072b2; --run: #0072b2; --success: #009e73; --failed: #d55e00; --lost: #8a8a8a; --mark: #a3195b; --shield: #f0e442;
}
@media (prefers-color-scheme: dark) {
  :root {
    --ground: #15171b; --ink: #e3e6ea; --soft: #9aa3ad; --line: #343a43; --panel: #1d2026; --chosen: #3d3a20;
    --open: #2d6a94; --shut: #22313d; --cancelled: #6a2d4c; --early: #28402f;
    --wait: #56b4e9; --run: #56b4e9; --failed: #ff8a3d; --success: #2fc79a; --mark: #ff7ab0;
  }
}
* { box-sizing: border-box; }
body {
  margin: 0; height: 100vh; overflow: hidden; font: 13px system-ui, sans-serif;
  background: var(--ground); color: var(--ink);
  display: grid; grid-template: auto auto 1fr / minmax(0, 1fr) minmax(260px, 30vw);
}
header { grid-column: 1 / 3; display: flex; flex-wrap: wrap; gap: 6px; align-items: center; padding: 6px 10px; border-bottom: 1px solid var(--line); }
h1 { font-size: 13px; margin: 0 6px 0 0; }
button, select, input { font: inherit; color: inherit; background: var(--panel); border: 1px solid var(--line); border-radius: 4px; padding: 3px 8px; }
:focus-visible { outline: 2px solid var(--mark); outline-offset: 1px; }
#query { width: 210px; }
#event { flex: 1; min-width: 140px; padding: 0; }
#note { flex-basis: 100%; color: var(--soft); }
#note:empty { display: none; }
#load { grid-column: 1; width: 100%; height: 64px; display: block; border-bottom: 1px solid var(--line); cursor: col-resize; touch-action: none; }
#chart { position: relative; overflow: hidden; grid-column: 1; touch-action: none; }
#bars { position: absolute; inset: 0; width: 100%; height: 100%; }
#rows { position: absolute; left: 0; right: 14px; top: 22px; bottom: 0; overflow: hidden; outline-offset: -2px; }
#rows > div { position: absolute; left: 0; right: 0; white-space: nowrap; }
#rows > div > span { display: inline-block; width: 250px; overflow: hidden; text-overflow: ellipsis; vertical-align: top; padding-left: 4px; font-size: 11px; background: var(--ground); }
#rows > div[aria-selected=true] > span { background: var(--chosen); }
#rows .scope { font-weight: 600; }
#rows .pale { opacity: .45; }
#bar { position: absolute; right: 0; top: 0; bottom: 0; width: 14px; overflow-y: scroll; }
aside { grid-row: 2 / 4; grid-column: 2; border-left: 1px solid var(--line); background: var(--panel); display: grid; grid-template-rows: auto minmax(0, 1fr); min-height: 0; }
#says { padding: 8px 12px; border-bottom: 1px solid var(--line); min-height: 130px; max-height: 42vh; overflow: auto; }
aside h2 { font-size: 13px; margin: 0 0 4px; }
aside p { margin: 2px 0; }
#now { overflow: auto; padding: 8px 12px; }
#tree { font: 12px ui-monospace, monospace; white-space: pre; }
#tree [role=treeitem] { cursor: pointer; }
#tree [role=treeitem]:hover, #tree [aria-selected=true] { background: var(--chosen); }
#tree .scope { font-weight: 600; }
.success { color: var(--success); } .failed { color: var(--failed); } .mark { color: var(--mark); } .soft { color: var(--soft); }
#tip { position: fixed; display: none; pointer-events: none; z-index: 9; max-width: 420px; background: var(--panel); border: 1px solid var(--line); border-radius: 4px; padding: 4px 8px; box-shadow: 0 2px 8px #0004; }
dialog { max-width: 46em; color: inherit; background: var(--ground); border: 1px solid var(--line); border-radius: 6px; }
dialog dl { display: grid; grid-template-columns: auto 1fr; gap: 2px 14px; } dialog dd { margin: 0; } dialog dt { font-family: ui-monospace, monospace; }
@media (max-width: 760px) {
  body { grid-template: auto auto 1fr 38vh / minmax(0, 1fr); }
  header { grid-column: 1; }
  aside { grid-row: 4; grid-column: 1; border-left: 0; border-top: 1px solid var(--line); }
  #rows > div > span { width: 150px; }
}
@media (prefers-reduced-motion: no-preference) { #tip { transition: opacity .1s; } }
</style>
</head>
<body>
<header>
<h1 id=\"title\"></h1>
<input id=\"query\" type=\"search\" placeholder=\"name, task 7, failed, >100\" aria-label=\"Search rows: a name, task 7, scope 3, failed, waiting, or &gt;100 for what took longer\">
<span id=\"hits\" class=\"soft\" role=\"status\"></span>
<select id=\"which\" aria-label=\"Which rows\">
<option value=\"all\">all rows</option><option value=\"hits\">only what is found</option><option value=\"awaited\">awaited at this event</option><option value=\"trouble\">failed, unavailable, cancelled</option><option value=\"longest\">the 100 longest tasks</option>
</select>
<select id=\"height\" aria-label=\"Height of rows\"><option value=\"22\">high</option><option value=\"16\">low</option><option value=\"4\">4 px</option><option value=\"1\">1 px</option></select>
<button id=\"fold\" aria-pressed=\"false\">fold closed</button>
<button id=\"whole\">whole run</button>
<button id=\"before\" aria-label=\"The cancel before\">&#9664; cancel</button>
<button id=\"back\" aria-label=\"One event back\">&lsaquo;</button>
<input id=\"event\" type=\"range\" min=\"0\" step=\"1\" aria-label=\"Event\">
<button id=\"on\" aria-label=\"One event on\">&rsaquo;</button>
<button id=\"after\" aria-label=\"The next cancel\">cancel &#9654;</button>
<button id=\"help\" aria-label=\"Keys\">?</button>
<div id=\"note\"></div>
</header>
<canvas id=\"load\" role=\"img\" aria-label=\"How many tasks ran and waited\"></canvas>
<aside>
<div id=\"says\" aria-live=\"polite\"></div>
<div id=\"now\"><h2 id=\"when\"></h2><div id=\"tree\" role=\"tree\" aria-label=\"What is open at this event\" tabindex=\"0\"></div></div>
</aside>
<div id=\"chart\">
<canvas id=\"bars\" aria-hidden=\"true\"></canvas>
<div id=\"rows\" role=\"tree\" aria-label=\"Scopes and tasks\" tabindex=\"0\"></div>
<div id=\"bar\" tabindex=\"-1\" aria-hidden=\"true\"><div id=\"tall\"></div></div>
</div>
<div id=\"tip\" aria-hidden=\"true\"></div>
<dialog id=\"keys\" aria-label=\"Keys\">
<dl>
<dt>/</dt><dd>search; Enter goes to the next row that is found, Shift Enter to the one before, Escape ends it</dd>
<dt>&uarr; &darr;</dt><dd>the row before and the next one</dd>
<dt>&larr; &rarr;</dt><dd>an event back and on; with Shift, 1 of 100 of the run</dd>
<dt>Home End</dt><dd>the first event and the last</dd>
<dt>c C</dt><dd>the next cancel and the one before</dd>
<dt>+ -</dt><dd>zoom in and out around the event</dd>
<dt>[ ]</dt><dd>move to the left and to the right</dd>
<dt>0</dt><dd>the whole run</dd>
<dt>Space</dt><dd>fold or unfold the row</dd>
<dt>f</dt><dd>fold what is closed, or unfold all</dd>
<dt>w</dt><dd>the deepest task that is awaited</dd>
<dt>?</dt><dd>these keys</dd>
</dl>
<p>Wheel: rows up and down; with Shift, time; with Ctrl, zoom. Two fingers zoom, one moves.</p>
<form method=\"dialog\"><button>close</button></form>
</dialog>
<script id=\"run\" type=\"text/plain\">";
