//! How the page looks.

/// The style sheet. Colours are those of the reader's scheme, light or dark; that of an agent is a
/// hue, which the script gives.
pub const STYLE: &[u8] = br#":root {
  color-scheme: light dark;
  --paper: #ffffff; --ink: #1d2330; --faint: #6a7383; --line: #dfe3ea; --band: #f4f6f9;
  --centre: #3f5673; --wait: #c77700; --bad: #c4232f; --good: #1d7a46; --found: #1f63c4;
  --strong: 38%; --soft: 92%;
}
@media (prefers-color-scheme: dark) {
  :root {
    --paper: #14171d; --ink: #e3e7ee; --faint: #929caf; --line: #2b313c; --band: #1c2129;
    --centre: #a9c0de; --wait: #f0a63c; --bad: #ff7b7f; --good: #69cf92; --found: #7fb2ff;
    --strong: 70%; --soft: 24%;
  }
}
* { box-sizing: border-box; }
body {
  margin: 0; background: var(--paper); color: var(--ink);
  font: 14px/1.45 system-ui, "Segoe UI", "Helvetica Neue", Arial, sans-serif;
}
header, #counts, footer { padding: 0 16px; }
header { display: flex; flex-wrap: wrap; align-items: baseline; gap: 4px 16px; padding-top: 12px; }
h1 { font-size: 18px; margin: 0; }
#ended { margin: 0; color: var(--faint); }
#ended b { color: var(--wait); }
noscript p { padding: 0 16px; color: var(--bad); }
code, .term { font: 13px/20px ui-monospace, "DejaVu Sans Mono", Menlo, Consolas, monospace; }
.term, .name { unicode-bidi: isolate; }
summary { cursor: pointer; padding: 8px 0 4px; font-weight: 600; }
#tables { display: flex; flex-wrap: wrap; gap: 8px 32px; padding-bottom: 8px; }
.scroll { max-height: 232px; overflow: auto; }
table { border-collapse: collapse; font-variant-numeric: tabular-nums; }
th, td { padding: 2px 9px; text-align: right; border-bottom: 1px solid var(--line); white-space: nowrap; }
th { color: var(--faint); font-weight: 500; position: sticky; top: 0; background: var(--paper); }
th:first-child, td:first-child { text-align: left; padding-left: 0; }
tr.sum td { font-weight: 600; border-bottom: 0; }
td.zero { color: var(--faint); opacity: .55; }
td.wait { color: var(--wait); } td.bad { color: var(--bad); }
td .bar { display: inline-block; width: 40px; height: 8px; margin-left: 8px; background: var(--line);
  border-radius: 4px; overflow: hidden; vertical-align: middle; }
td .bar i { display: block; height: 100%; background: var(--centre); }
button, select, input { font: inherit; color: inherit; background: var(--paper);
  border: 1px solid var(--line); border-radius: 5px; padding: 3px 8px; }
button { cursor: pointer; }
button.plain { border: 0; padding: 0; background: none; text-align: left; }
button.waits { font: 13px ui-monospace, "DejaVu Sans Mono", monospace; margin-right: 12px; color: var(--ink); }
button.partner { margin: 4px 0; }
button.plain:hover { text-decoration: underline; }
button:disabled { opacity: .4; cursor: default; }
:focus-visible { outline: 2px solid var(--found); outline-offset: 1px; }
#top { position: sticky; top: 0; z-index: 2; background: var(--paper); border-bottom: 1px solid var(--line); }
#filters { display: flex; flex-wrap: wrap; align-items: center; gap: 6px 14px; padding: 8px 16px;
  background: var(--band); border-top: 1px solid var(--line); }
#filters label { color: var(--faint); } #filters label > * { color: var(--ink); }
#filters select { max-width: 180px; } #words { width: 220px; }
#found { margin-left: auto; color: var(--faint); }
#parts { display: flex; gap: 6px; align-items: center; } #parts:empty { display: none; }
#parts input { width: 90px; }
#heads { position: relative; overflow: hidden; margin-left: 16px; }
#heads .lane { position: absolute; bottom: 4px; max-height: calc(100% - 6px); overflow: hidden; writing-mode: vertical-rl;
  transform: rotate(180deg); white-space: nowrap; font-size: 12px; line-height: 16px; }
#heads .lane.centre { color: var(--centre); font-weight: 600; }
#heads .main { position: absolute; bottom: 0; right: 0; color: var(--faint); font-size: 12px; }
.agent { color: hsl(var(--hue) 62% var(--strong)); }
#rows { position: relative; margin: 0 0 0 16px; overflow: hidden; outline-offset: -2px; }
#rows svg { position: absolute; left: 0; top: 0; }
#rows svg .life { stroke: var(--line); stroke-width: 1; }
#rows svg .life.centre { stroke: var(--centre); stroke-width: 2; opacity: .35; }
#rows svg .arrow { stroke: currentColor; stroke-width: 1.5; fill: none; }
#rows svg .look { stroke-dasharray: 2 3; }
#rows svg .head { fill: currentColor; }
#rows svg .wait { fill: var(--wait); } #rows svg .wait.still { opacity: .55; }
#rows svg .wait.brief { fill: var(--faint); opacity: .6; }
#rows svg .fired { fill: var(--good); } #rows svg .failed { fill: var(--bad); }
#rows svg .refused { stroke: var(--bad); stroke-width: 2; }
.row { position: absolute; right: 0; cursor: pointer; border-bottom: 1px solid transparent; }
.row:hover { background: var(--band); }
.row.current { background: var(--band); box-shadow: inset 3px 0 var(--found); }
.main { display: grid; height: 26px; align-items: center; gap: 0 10px; padding: 0 16px 0 8px;
  grid-template-columns: 52px minmax(60px, 110px) minmax(0, 1fr) minmax(0, 1fr) minmax(50px, 110px) 116px; }
.main > * { overflow: hidden; text-overflow: ellipsis; white-space: nowrap; }
.step { color: var(--faint); text-align: right; font-variant-numeric: tabular-nums; }
.agent.name { font-weight: 600; }
.centre.name { color: var(--centre); }
.echo { color: var(--faint); }
.pending, .waited { color: var(--wait); } .refused, .over { color: var(--bad); }
.tuple, .found { color: var(--good); } .none, .absent { color: var(--faint); }
.waited { font-size: 12px; margin-left: 8px; }
.reactions { text-align: right; font-size: 12px; line-height: 20px; color: var(--faint); }
.reactions b { font-weight: 600; color: var(--good); } .reactions b.failed { color: var(--bad); }
.more { padding: 2px 16px 10px 70px; }
.more p, .more li { margin: 0; overflow-wrap: anywhere; }
.more p { color: var(--faint); } .more p .term { color: var(--ink); }
.more ol:empty { display: none; }
.more ol { margin: 4px 0 0; padding: 0; list-style: none; border-left: 2px solid var(--line); }
.more li { padding: 1px 0 1px 10px; }
.more li.failed { color: var(--faint); }
.more li > b { color: var(--good); } .more li.failed > b { color: var(--bad); }
.more .put { color: var(--good); } .more .took { color: var(--bad); } .more .read { color: var(--found); }
.more .failed .term { text-decoration: line-through; }
.nothing { padding: 24px 16px; color: var(--faint); }
footer { padding-top: 16px; padding-bottom: 24px; color: var(--faint); font-size: 12px; }
kbd { border: 1px solid var(--line); border-radius: 3px; padding: 0 4px; font: 11px ui-monospace, monospace; }
@media (max-width: 760px) {
  .main { grid-template-columns: 40px minmax(40px, 70px) minmax(0, 5fr) minmax(0, 4fr); }
  .main > :nth-child(n+5) { display: none; }
}
@media print { #top { position: static; } #filters { display: none; } }
"#;
