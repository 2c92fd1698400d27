//! What stands around the style, the script and the data.

/// The beginning of the page.
pub const FRONT: &str = r##"<!doctype html>
<html lang="en">
<head>
<meta charset="utf-8">
<meta name="viewport" content="width=device-width, initial-scale=1">
<title>A parse</title>
"##;

/// The body of the page, up to the data.
pub const BODY: &str = r##"</head>
<body>
<h1 id="title">A parse</h1>
<noscript><p>The script that stands in this page draws it, and is switched off.</p></noscript>
<main>
<section class="panel bar" aria-label="Position">
  <div class="keys" role="group" aria-label="Moves">
    <button type="button" id="first" aria-label="To the first position" title="Home">|&lt;</button>
    <button type="button" id="back" aria-label="One step back" title="Left">&lt;</button>
    <button type="button" id="play" aria-label="Play" title="Space">Play</button>
    <button type="button" id="on" aria-label="One step forward" title="Right">&gt;</button>
    <button type="button" id="last" aria-label="To the last position" title="End">&gt;|</button>
    <input type="range" id="slider" step="1" aria-label="Position">
    <output id="place"></output>
  </div>
  <p class="done" id="done" role="status" aria-live="polite"></p>
  <dl class="facts">
    <div><dt>mode</dt><dd id="mode"></dd></div>
    <div><dt>errors</dt><dd id="errors"></dd></div>
    <div><dt>recovery counter</dt><dd id="counter"></dd></div>
  </dl>
</section>
<section class="panel" id="source" aria-labelledby="source-name" hidden>
  <h2 id="source-name">Text</h2>
  <div class="source" id="lines" role="group" tabindex="0" aria-labelledby="source-name"></div>
</section>
<section class="panel" aria-labelledby="tokens-name">
  <h2 id="tokens-name">Tokens</h2>
  <ol class="names" id="tokens" tabindex="0" aria-labelledby="tokens-name"></ol>
</section>
<div class="three">
  <section class="panel" aria-labelledby="stack-name">
    <h2 id="stack-name">Stack, the top first</h2>
    <ol class="rows" id="stack" tabindex="0" aria-labelledby="stack-name"></ol>
  </section>
  <section class="panel" aria-labelledby="state-name">
    <h2 id="state-name">State</h2>
    <ul class="items" id="items" tabindex="0" aria-labelledby="state-name"></ul>
    <p class="next" id="next"></p>
    <p class="could" id="expected" hidden></p>
    <p class="note" id="note" hidden></p>
    <pre id="why"></pre>
  </section>
  <section class="panel wide" aria-labelledby="tree-name">
    <h2 id="tree-name">Trees of the stack</h2>
    <div class="keys" role="group" aria-label="Trees">
      <button type="button" id="open">Open all</button>
      <button type="button" id="close">Close all</button>
    </div>
    <div class="rows" id="tree" role="tree" tabindex="0" aria-labelledby="tree-name"></div>
  </section>
</div>
<section class="panel" aria-labelledby="drawing-name">
  <h2 id="drawing-name">Drawing of the trees</h2>
  <div class="drawing" id="drawing" role="tree" tabindex="0" aria-labelledby="drawing-name">
    <svg id="forest" role="presentation"><path id="edges"></path></svg>
  </div>
  <p class="faint" id="undrawn"></p>
</section>
<div class="beside">
  <section class="panel" aria-labelledby="recovery-name">
    <h2 id="recovery-name">Errors and recovery</h2>
    <ol id="recovery"></ol>
  </section>
  <section class="panel" aria-labelledby="met-name">
    <h2 id="met-name">Conflicts met on the way</h2>
    <ol id="met"></ol>
  </section>
</div>
<section class="panel" id="conflicts" aria-labelledby="conflicts-name" hidden>
  <h2 id="conflicts-name">Conflicts of the grammar</h2>
  <p id="counts"></p>
  <div id="kinds"></div>
</section>
<details class="panel">
  <summary>Rules of the grammar</summary>
  <ol class="items" id="rules"></ol>
</details>
</main>
<p class="hint faint">Left and right step, home and end go to the ends, space plays. In the trees
  the arrows move; in the rows they fold too, in the drawing enter does. The address ends with the
  position, as in #12.</p>
<script type="application/json" id="data">"##;

/// The end of the page, after the data.
pub const END: &str = "</script>\n</body>\n</html>\n";
