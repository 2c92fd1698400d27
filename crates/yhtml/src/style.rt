//! The style of the page.

/// It stands in the head of the page.
pub const STYLE: &str = r##"<style>
:root {
  color-scheme: light dark; --back: #fbfaf7; --panel: #fff; --line: #d8d4ca; --text: #22211e;
  --faint: #67635a; --mark: #0b5cad; --on-mark: #fff; --new: #dcebfb; --bad: #b3261e;
  --on-bad: #fdeceb; --warn: #6f4600; --on-warn: #fff0cf; --good: #1c6b34;
}
@media (prefers-color-scheme: dark) {
  :root {
    --back: #1a1b1e; --panel: #232529; --line: #44474e; --text: #e9e7e2; --faint: #a9a59b;
    --mark: #8cc2ff; --on-mark: #10243a; --new: #22405f; --bad: #ff9d94; --on-bad: #4a2320;
    --warn: #f2c46d; --on-warn: #423313; --good: #86d69d;
  }
}
* { box-sizing: border-box; }
body {
  margin: 0 auto; padding: 0 1rem 2rem; max-width: 90rem; background: var(--back);
  color: var(--text); font: 16px/1.45 system-ui, sans-serif;
}
h1, h2, h3, h4 { font-size: 1rem; margin: .25rem 0 .5rem; overflow-wrap: anywhere; }
.names, .rows, .items, .source, .drawing, pre {
  font-family: ui-monospace, monospace; font-size: .875rem;
}
pre { margin: .25rem 0; white-space: pre-wrap; overflow-wrap: anywhere; }
ol, ul, dd { list-style: none; margin: 0; padding: 0; }
ul ul, ol ul { padding-left: 1.5rem; }
a { color: var(--mark); }
:focus-visible { outline: 3px solid var(--mark); outline-offset: 1px; }
button {
  min-width: 2.5rem; min-height: 2.25rem; font: inherit; color: inherit; cursor: pointer;
  background: var(--back); border: 1px solid var(--line); border-radius: .3rem;
}
.faint, .taken, .more, dt { color: var(--faint); }
.panel, .box {
  min-width: 0; margin: 0 0 1rem; padding: .75rem;
  background: var(--panel); border: 1px solid var(--line); border-radius: .4rem;
}
.bar { position: sticky; top: 0; z-index: 1; }
.keys { display: flex; flex-wrap: wrap; gap: .4rem; align-items: center; }
.keys input { flex: 1 1 8rem; min-width: 8rem; accent-color: var(--mark); }
.done, .next { margin: .5rem 0 0; font-weight: 600; overflow-wrap: anywhere; }
.e, .f, .dot, .discarded, .popped { color: var(--bad); }
.done.a { color: var(--good); }
.facts, .facts div { display: flex; flex-wrap: wrap; gap: 0 .75rem; margin: .25rem 0 0; }
.names { display: flex; gap: .3rem; overflow-x: auto; padding: .3rem; position: relative; }
.names li { flex: none; padding: 0 .4rem; border: 1px solid var(--line); border-radius: .3rem; }
.discarded, .popped { background: var(--on-bad); }
.discarded, .popped > :nth-child(2) { text-decoration: line-through; }
.names [aria-current] { background: var(--mark); color: var(--on-mark); font-weight: 700; }
.source { max-height: 300px; overflow: auto; position: relative; contain: content; }
.line { min-height: 1.45em; padding-left: 4rem; white-space: pre-wrap; overflow-wrap: anywhere; }
.line::before {
  content: attr(data-line); display: inline-block; width: 3rem; margin: 0 1rem 0 -4rem;
  color: var(--faint); text-align: right; user-select: none;
}
mark { background: var(--mark); color: var(--on-mark); font-weight: 700; border-radius: .2rem; }
.three, .beside { display: grid; gap: 0 1rem; align-items: start; }
@media (min-width: 44rem) {
  .three { grid-template-columns: 1fr 2fr; }
  .three > :last-child { grid-column: 1 / -1; }
  .beside { grid-template-columns: repeat(auto-fit, minmax(18rem, 1fr)); }
}
@media (min-width: 72rem) {
  .three { grid-template-columns: 3fr 5fr 6fr; }
  .three > :last-child { grid-column: auto; }
}
.rows, .items { max-height: 480px; margin-top: .5rem; overflow: auto; contain: content; }
.rows li { display: flex; gap: .75rem; padding: 0 .4rem; white-space: pre; }
.rows li > :first-child { min-width: 2.5ch; }
.rows li > :nth-child(2) { flex: 1; }
.new { background: var(--new); }
.items li { padding-left: 1.5rem; text-indent: -1.5rem; overflow-wrap: anywhere; }
.looks { color: var(--faint); font-weight: 400; }
.could { margin: .25rem 0; overflow-wrap: anywhere; white-space: pre-line; }
.drawing { max-height: 480px; overflow: auto; contain: content; }
.drawing svg { display: block; margin: 0 auto; }
.drawing text { fill: var(--text); text-anchor: middle; }
.drawing text + text { fill: var(--faint); font-size: .75rem; }
.drawing rect { fill: var(--panel); stroke: var(--line); }
.drawing g { cursor: pointer; }
.drawing .folded rect { fill: var(--back); stroke-dasharray: 4 3; stroke: var(--faint); }
.drawing .new rect { fill: var(--new); }
.drawing:focus .active rect { stroke: var(--mark); stroke-width: 3; }
#edges { fill: none; stroke: var(--faint); }
.hot, .dot { font-weight: 700; }
.hot .faint { font-weight: 400; }
#kinds h3 { margin-top: 1.25rem; padding-top: .75rem; border-top: 1px solid var(--line); }
.note { background: var(--on-warn); color: var(--warn); padding: .25rem .5rem; margin: .5rem 0; }
[role=treeitem] { height: 24px; line-height: 24px; white-space: pre; cursor: pointer; }
.rows:focus .active { outline: 2px solid var(--mark); outline-offset: -2px; }
@media print {
  :root { color-scheme: light; --back: #fff; --panel: #fff; --text: #000; --faint: #444; }
  .keys, .hint { display: none; }
  .bar { position: static; }
  .rows, .items, .names, .source, .drawing {
    max-height: none; overflow: visible; flex-wrap: wrap; contain: none;
  }
}
</style>
"##;
